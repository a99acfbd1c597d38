//! Sets of nodes.
ghost use Rattle.std.specs.Prelude.{◌≡◌, ◌<◌, ◌+◌, ◌*◌, IfOk, List, ℕ, slice_index, length, sum};
ghost use Rattle.std.specs.Prelude.{MatchBool};
ghost use Rattle.language_base.specs.Limits.{max_positions};
ghost use Rattle.ambiguity_check.specs.declared.graph.Node.{Node};
ghost use Rattle.ambiguity_check.specs.Walks.{phases, rank, IsOf};
ghost use Rattle.ambiguity_check.specs.Marked.{IsMarked, AreMarkedToo};

use crate::graph::{Move, Phase};
use rate_expr::MAX_POSITIONS;
use rate_expr::masks::{end_of, has, overlap};
use std::alloc::{AllocError, Global};
use std::marker::Model;

/// How many phases there are.
const PHASES: usize = 3;

/// How many rows there are: one for each left position and phase.
const ROWS: usize = PHASES * MAX_POSITIONS as usize;

/// A set of nodes, seen as a mask of the right positions for each left position and phase.
#[derive(Drop)]
pub struct Marks {
    rows: Vec<u128>,
}

impl Model for Marks {
    ghost use Rattle.std.specs.Prelude.{◌≡◌, List, ℕ, length};
    ghost use Rattle.ambiguity_check.specs.declared.marks.TheConstants.{ROWS};

    ghost Value = { List ℕ };

    ghost view = { λ m. m.rows.items };

    ghost invariant = { λ m. length m.rows.items ≡ ROWS };
}

impl Marks {
    /// The empty set.
    pub(crate) fn new(alloc: Global) -> Result<Marks, AllocError>
        ensures { IfOk result (λ marks. (node : Node) → IsMarked marks node → ⊥) }
    {
        let rows = vec![in alloc; 0u128; ROWS]?;
        Ok(Marks { rows })
    }

    /// The right positions of the nodes with this phase and left position.
    pub fn row(&self, phase: Phase, left: u32) -> u128
        ensures { result ≡ slice_index self.now (phases * left + rank phase) }
    {
        self.rows
            .get(PHASES * left as usize + phase.rank())
            .copied()
            .unwrap_or(0)
    }

    /// Whether one of these nodes is in the set.
    pub fn has_some(&self, nodes: Move) -> bool
        ensures { MatchBool result ((node : Node) × IsMarked self.now node × IsOf nodes node)
            ((node : Node) → IsMarked self.now node → IsOf nodes node → ⊥) }
    {
        'lefts: for left in 0..end_of(nodes.left) {
            if has(nodes.left, left) && overlap(self.row(nodes.phase, left), nodes.right) {
                return true;
            }
        }
        false
    }

    /// A bound of the left positions of all nodes.
    pub fn end(&self) -> u32
        ensures end { result ≡ max_positions }
        ensures below { (node : Node) → IsMarked self.now node → node.left < result }
    {
        (self.rows.len() / PHASES) as u32
    }

    /// Whether the set is empty.
    pub fn is_empty(&self) -> bool
        ensures { MatchBool result ((node : Node) → IsMarked self.now node → ⊥)
            ((node : Node) × IsMarked self.now node) }
    {
        'rows: for row in 0..ROWS {
            let mask = self.rows[row];
            if mask != 0 {
                return false;
            }
        }
        true
    }

    /// Makes the set empty.
    pub(crate) fn clear(&mut self)
        ensures { sum self.new ≡ 0 }
    {
        self.rows.fill(0);
    }

    /// Adds nodes of one row.
    pub(crate) fn add(&mut self, phase: Phase, left: u32, rights: u128)
        requires { left < max_positions }
        ensures { AreMarkedToo self.old phase left rights self.new }
    {
        let row = PHASES * left as usize + phase.rank();
        let mask = self.rows[row];
        self.rows[row] = mask | rights;
    }
}
