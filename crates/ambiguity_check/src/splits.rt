//! Whether each word splits in at most one way into a word of one rate and then one of another.
ghost use Rattle.std.specs.Prelude.{◌≡◌, ◌↔◌, ℕ, IfOk, MatchBool, IsSomeAnd};
ghost use Rattle.rate_expr.specs.Paths.{AreOf};
ghost use Rattle.rate_expr.specs.Rates.{Regex};
ghost use Rattle.rate_expr.specs.Sets.{Has};
ghost use Rattle.rate_expr.specs.Readings.{HaveOneSplit, HaveTwoSplits};
ghost use Rattle.ambiguity_check.specs.declared.graph.Node.{Node};
ghost use Rattle.ambiguity_check.specs.Walks.{IsOf};
ghost use Rattle.ambiguity_check.specs.Splits.{left_of, right_of, TurnsTo, EndsSplits, AreRows};
ghost use Rattle.ambiguity_check.specs.Marked.{IsMarked};

use crate::graph::{Graph, Move, Moves, Phase};
use crate::marks::Marks;
use crate::meetings::meetings;
use crate::reachability::reach;
use crate::readings::{after, all_after, row};
use rate_expr::Positions;
use rate_expr::masks::{has, overlap};
use std::alloc::{AllocError, Global};
use symbolic_nfa::Nfa;

/// Whether no word splits in two ways into a word of the first rate and then one of the second.
pub fn one_split(alloc: Global, first: &Nfa, second: &Nfa) -> Result<bool, AllocError>
    requires { first.now.cells ≡ second.now.cells }
    ensures { IfOk result (λ answer. (r s : Regex)
        → AreOf first.now.sets r → AreOf second.now.sets s → MatchBool answer
        (HaveOneSplit first.now.cells.layout.columns r s)
        (HaveTwoSplits first.now.cells.layout.columns r s)) }
{
    let splits = Splits::new(alloc, first, second)?;
    let marks = reach(alloc, &splits)?;
    Ok(!splits.end_in(&marks))
}

/// Two splits of one word, of which the left one has the shorter first part. For each phase there
/// are rows: for each left position, the right positions that some item meets together with it.
#[derive(Drop)]
pub struct Splits<'a> {
    pub first: &'a Positions,
    pub second: &'a Positions,
    pub together: Vec<u128>,
    pub parted: Vec<u128>,
    pub rejoined: Vec<u128>,
}

impl<'a> Splits<'a> {
    /// The graph for the rates of the automata.
    pub fn new(alloc: Global, first: &'a Nfa, second: &'a Nfa) -> Result<Splits<'a>, AllocError>
        requires { first.now.cells ≡ second.now.cells }
        ensures first { IfOk result (λ splits. splits.first.now ≡ first.now.sets) }
        ensures second { IfOk result (λ splits. splits.second.now ≡ second.now.sets) }
        ensures rows { IfOk result (λ splits. AreRows first.now.cells.layout.columns
            first.now.sets second.now.sets
            splits.together.items splits.parted.items splits.rejoined.items) }
    {
        Ok(Splits {
            first: first.positions(),
            second: second.positions(),
            together: meetings(alloc, first, first)?,
            parted: meetings(alloc, second, first)?,
            rejoined: meetings(alloc, second, second)?,
        })
    }
}

impl Splits<'_> {
    // The automaton of the part that the left reading is in.
    fn left(&self, phase: Phase) -> &Positions
        ensures { result.now ≡ left_of self.now.first.now self.now.second.now phase }
    {
        match phase {
            Phase::Together => self.first,
            Phase::Parted | Phase::Rejoined => self.second,
        }
    }

    // The automaton of the part that the right reading is in.
    fn right(&self, phase: Phase) -> &Positions
        ensures { result.now ≡ right_of self.now.first.now self.now.second.now phase }
    {
        match phase {
            Phase::Together | Phase::Parted => self.first,
            Phase::Rejoined => self.second,
        }
    }

    // Where an item leads if one reading ends its first part before it.
    fn turn(&self, phase: Phase, left: u32, rights: u128) -> Option<Move>
        ensures { (node : Node) → IsSomeAnd result (λ step. IsOf step node)
            ↔ ((right : ℕ) × Has rights right
            × TurnsTo self.now.first.now self.now.second.now phase left right node) }
    {
        match phase {
            Phase::Together => has(self.first.last(), left).then_some(Move {
                phase: Phase::Parted,
                left: self.second.first(),
                right: all_after(self.first, rights),
            }),
            Phase::Parted => overlap(rights, self.first.last()).then_some(Move {
                phase: Phase::Rejoined,
                left: after(self.second, left),
                right: self.second.first(),
            }),
            Phase::Rejoined => None,
        }
    }

    /// Whether both readings may end in one of the nodes.
    pub fn end_in(&self, marks: &Marks) -> bool
        ensures { MatchBool result
            ((node : Node) × IsMarked marks.now node
            × EndsSplits self.now.first.now self.now.second.now node)
            ((node : Node) → IsMarked marks.now node
            → EndsSplits self.now.first.now self.now.second.now node → ⊥) }
    {
        let ends = self.second.last();
        let parted = Move {
            phase: Phase::Parted,
            left: ends,
            right: self.first.last(),
        };
        let rejoined = Move {
            phase: Phase::Rejoined,
            left: ends,
            right: ends,
        };
        self.second.nullable() && marks.has_some(parted) || marks.has_some(rejoined)
    }
}

impl Graph for Splits<'_> {
    ghost use Rattle.ambiguity_check.specs.Splits.{BeginsSplits, Continues, MeetIn};

    ghost begins = { λ s. BeginsSplits s.first.now s.second.now };

    ghost continues = { λ s. Continues s.first.now s.second.now };

    ghost meet = { λ s. MeetIn s.together.items s.parted.items s.rejoined.items };

    fn starts(&self) -> Moves {
        Moves {
            stay: Move {
                phase: Phase::Together,
                left: self.first.first(),
                right: self.first.first(),
            },
            turn: self.first.nullable().then_some(Move {
                phase: Phase::Parted,
                left: self.second.first(),
                right: self.first.first(),
            }),
        }
    }

    fn moves(&self, phase: Phase, left: u32, rights: u128) -> Moves {
        Moves {
            stay: Move {
                phase,
                left: after(self.left(phase), left),
                right: all_after(self.right(phase), rights),
            },
            turn: self.turn(phase, left, rights),
        }
    }

    fn meets(&self, phase: Phase, left: u32) -> u128 {
        match phase {
            Phase::Together => row(&self.together, left),
            Phase::Parted => row(&self.parted, left),
            Phase::Rejoined => row(&self.rejoined, left),
        }
    }
}
