//! Whether each word factors in at most one way into words of a rate.
ghost use Rattle.std.specs.Prelude.{◌≡◌, IfOk, MatchBool};
ghost use Rattle.rate_expr.specs.Paths.{AreOf};
ghost use Rattle.rate_expr.specs.Rates.{Regex};
ghost use Rattle.rate_expr.specs.Readings.{HasOneFactoring, HasTwoFactorings};
ghost use Rattle.ambiguity_check.specs.Meetings.{AreMeetings};

use crate::graph::{Graph, Move, Moves, Phase};
use crate::meetings::meetings;
use crate::reachability::reach;
use crate::readings::{after, all_after, all_onward, onward, row};
use rate_expr::Positions;
use rate_expr::masks::has;
use std::alloc::{AllocError, Global};
use symbolic_nfa::Nfa;

/// Whether no word factors in two ways into words of the rate. If so, the empty word is not in the
/// rate.
pub fn one_factoring(alloc: Global, nfa: &Nfa) -> Result<bool, AllocError>
    ensures { IfOk result (λ answer. (r : Regex) → AreOf nfa.now.sets r → MatchBool answer
        (HasOneFactoring nfa.now.cells.layout.columns r)
        (HasTwoFactorings nfa.now.cells.layout.columns r)) }
{
    let positions = nfa.positions();
    if positions.nullable() {
        return Ok(false);
    }
    let factorings = Factorings::new(alloc, nfa)?;
    let marks = reach(alloc, &factorings)?;
    let ends = Move {
        phase: Phase::Parted,
        left: positions.last(),
        right: positions.last(),
    };
    Ok(!marks.has_some(ends))
}

/// Two factorings of one word whose first factors differ. The left reading has the shorter one.
#[derive(Drop)]
pub struct Factorings<'a> {
    pub positions: &'a Positions,
    /// For each position, the positions that some item meets together with it.
    pub rows: Vec<u128>,
}

impl<'a> Factorings<'a> {
    /// The graph for the rate of the automaton.
    pub fn new(alloc: Global, nfa: &'a Nfa) -> Result<Factorings<'a>, AllocError>
        ensures sets { IfOk result (λ factorings. factorings.positions.now ≡ nfa.now.sets) }
        ensures rows { IfOk result (λ factorings. AreMeetings nfa.now.cells.layout.columns
            nfa.now.sets nfa.now.sets factorings.rows.items) }
    {
        Ok(Factorings {
            positions: nfa.positions(),
            rows: meetings(alloc, nfa, nfa)?,
        })
    }
}

impl Graph for Factorings<'_> {
    ghost use Rattle.ambiguity_check.specs.Factorings.{BeginsFactors, Factors};
    ghost use Rattle.ambiguity_check.specs.Overlaps.{IsInRows};

    ghost begins = { λ f. BeginsFactors f.positions.now };

    ghost continues = { λ f. Factors f.positions.now };

    ghost meet = { λ f. IsInRows f.rows.items };

    fn starts(&self) -> Moves {
        Moves {
            stay: Move {
                phase: Phase::Together,
                left: self.positions.first(),
                right: self.positions.first(),
            },
            turn: None,
        }
    }

    fn moves(&self, phase: Phase, left: u32, rights: u128) -> Moves {
        match phase {
            Phase::Together => Moves {
                stay: Move {
                    phase: Phase::Together,
                    left: after(self.positions, left),
                    right: all_after(self.positions, rights),
                },
                turn: has(self.positions.last(), left).then_some(Move {
                    phase: Phase::Parted,
                    left: self.positions.first(),
                    right: all_after(self.positions, rights),
                }),
            },
            Phase::Parted | Phase::Rejoined => Moves {
                stay: Move {
                    phase: Phase::Parted,
                    left: onward(self.positions, left),
                    right: all_onward(self.positions, rights),
                },
                turn: None,
            },
        }
    }

    fn meets(&self, _: Phase, left: u32) -> u128 {
        row(&self.rows, left)
    }
}
