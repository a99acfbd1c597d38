//! Whether two rates share a word.
ghost use Rattle.std.specs.Prelude.{◌≡◌, IfOk, MatchBool};
ghost use Rattle.rate_expr.specs.Paths.{AreOf};
ghost use Rattle.rate_expr.specs.Rates.{Regex};
ghost use Rattle.rate_expr.specs.Readings.{AreDisjoint, Overlap};
ghost use Rattle.ambiguity_check.specs.Meetings.{AreMeetings};

use crate::graph::{Graph, Move, Moves, Phase};
use crate::meetings::meetings;
use crate::reachability::reach;
use crate::readings::{after, all_after, row};
use rate_expr::Positions;
use std::alloc::{AllocError, Global};
use symbolic_nfa::Nfa;

/// Whether no word is in both rates.
pub fn disjoint(alloc: Global, first: &Nfa, second: &Nfa) -> Result<bool, AllocError>
    requires { first.now.cells ≡ second.now.cells }
    ensures { IfOk result (λ answer. (r s : Regex)
        → AreOf first.now.sets r → AreOf second.now.sets s → MatchBool answer
        (AreDisjoint first.now.cells.layout.columns r s)
        (Overlap first.now.cells.layout.columns r s)) }
{
    let (left, right) = (first.positions(), second.positions());
    if left.nullable() && right.nullable() {
        return Ok(false);
    }
    let pairs = Pairs::new(alloc, first, second)?;
    let marks = reach(alloc, &pairs)?;
    let ends = Move {
        phase: Phase::Together,
        left: left.last(),
        right: right.last(),
    };
    Ok(!marks.has_some(ends))
}

/// Two readings of one word, each by a rate of its own.
#[derive(Drop)]
pub struct Pairs<'a> {
    pub first: &'a Positions,
    pub second: &'a Positions,
    /// For each position of the first, the positions of the second that some item meets together
    /// with it.
    pub rows: Vec<u128>,
}

impl<'a> Pairs<'a> {
    /// The graph for the rates of the automata.
    pub fn new(alloc: Global, first: &'a Nfa, second: &'a Nfa) -> Result<Pairs<'a>, AllocError>
        requires { first.now.cells ≡ second.now.cells }
        ensures first { IfOk result (λ pairs. pairs.first.now ≡ first.now.sets) }
        ensures second { IfOk result (λ pairs. pairs.second.now ≡ second.now.sets) }
        ensures rows { IfOk result (λ pairs. AreMeetings first.now.cells.layout.columns
            first.now.sets second.now.sets pairs.rows.items) }
    {
        Ok(Pairs {
            first: first.positions(),
            second: second.positions(),
            rows: meetings(alloc, first, second)?,
        })
    }
}

impl Graph for Pairs<'_> {
    ghost use Rattle.ambiguity_check.specs.Overlaps.{BeginsBoth, FollowsBoth, IsInRows};

    ghost begins = { λ p. BeginsBoth p.first.now p.second.now };

    ghost continues = { λ p. FollowsBoth p.first.now p.second.now };

    ghost meet = { λ p. IsInRows p.rows.items };

    fn starts(&self) -> Moves {
        Moves {
            stay: Move {
                phase: Phase::Together,
                left: self.first.first(),
                right: self.second.first(),
            },
            turn: None,
        }
    }

    fn moves(&self, _: Phase, left: u32, rights: u128) -> Moves {
        Moves {
            stay: Move {
                phase: Phase::Together,
                left: after(self.first, left),
                right: all_after(self.second, rights),
            },
            turn: None,
        }
    }

    fn meets(&self, _: Phase, left: u32) -> u128 {
        row(&self.rows, left)
    }
}
