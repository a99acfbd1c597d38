//! Nodes of a level at which a walk ends.
ghost use Rattle.std.specs.Prelude.{ℕ, MatchOption};
ghost use Rattle.ambiguity_check.specs.declared.graph.Node.{Node};
ghost use Rattle.ambiguity_check.specs.Marked.{IsMarked};
ghost use Rattle.ambiguity_check.specs.Walks.{IsIn, IsOf};
ghost use Rattle.rate_expr.specs.Sets.{Has};

use ambiguity_check::{Marks, Move, Moves, Node};
use rate_expr::masks::{end_of, has, lowest};

pub(crate) fn end_in(level: &Marks, ends: Moves) -> Option<Node>
    ensures { MatchOption result ((node : Node) → IsMarked level.now node → IsIn ends node → ⊥)
        (λ node. IsMarked level.now node × IsIn ends node) }
{
    if let Some(node) = node_in(level, ends.stay) {
        return Some(node);
    }
    match ends.turn {
        Some(turn) => node_in(level, turn),
        None => None,
    }
}

fn node_in(level: &Marks, nodes: Move) -> Option<Node>
    ensures { MatchOption result ((node : Node) → IsMarked level.now node → IsOf nodes node → ⊥)
        (λ node. IsMarked level.now node × IsOf nodes node) }
{
    'lefts: for left in 0..end_of(nodes.left) {
        if has(nodes.left, left) {
            if let Some(right) = lowest_of_both(level.row(nodes.phase, left), nodes.right) {
                let phase = nodes.phase;
                return Some(Node { phase, left, right });
            }
        }
    }
    None
}

fn lowest_of_both(first: u128, second: u128) -> Option<u32>
    ensures { MatchOption result ((place : ℕ) → Has first place → Has second place → ⊥)
        (λ place. Has first place × Has second place) }
{
    let both = first & second;
    if both == 0 {
        return None;
    }
    Some(lowest(both))
}
