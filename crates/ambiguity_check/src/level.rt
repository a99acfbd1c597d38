//! The step of a search from one level to the next.
ghost use Rattle.ambiguity_check.specs.Walks.{IsOf, IsIn};
ghost use Rattle.ambiguity_check.specs.Found.{AreFound, IsAfter, IsAfterPhase};

use crate::graph::{Graph, Move, Moves, Phase};
use crate::marks::Marks;
use rate_expr::masks::{lowest, without_lowest};

/// Marks the nodes to which one more item leads from the level.
pub(crate) fn mark_level<G: Graph>(graph: &G, level: &Marks, seen: &mut Marks, next: &mut Marks)
    ensures { AreFound (IsAfter (G.continues graph.now) (G.meet graph.now) level.now)
        seen.old next.old seen.new next.new }
{
    mark_phase(graph, Phase::Together, level, seen, next);
    mark_phase(graph, Phase::Parted, level, seen, next);
    mark_phase(graph, Phase::Rejoined, level, seen, next);
}

// Each row of the level is followed to each row of its moves, so that for n positions a level costs
// at most n^2 steps. Each node is new in one level only, so that a row of n nodes is in at most n
// levels. In the worst case each row has one new node in each of n levels, which costs n^3 steps.
fn mark_phase<G: Graph>(graph: &G, phase: Phase, level: &Marks, seen: &mut Marks, next: &mut Marks)
    ensures { AreFound (IsAfterPhase (G.continues graph.now) (G.meet graph.now) level.now phase)
        seen.old next.old seen.new next.new }
{
    'lefts: for left in 0..level.end() {
        let rights = level.row(phase, left);
        if rights != 0 {
            mark_moves(graph, graph.moves(phase, left, rights), seen, next);
        }
    }
}

/// Marks the nodes to which the moves lead. Those that were not seen before are the next level.
pub(crate) fn mark_moves<G: Graph>(graph: &G, moves: Moves, seen: &mut Marks, next: &mut Marks)
    ensures { AreFound (λ node. IsIn moves node × G.meet graph.now node)
        seen.old next.old seen.new next.new }
{
    mark_move(graph, moves.stay, seen, next);
    if let Some(turn) = moves.turn {
        mark_move(graph, turn, seen, next);
    }
}

fn mark_move<G: Graph>(graph: &G, step: Move, seen: &mut Marks, next: &mut Marks)
    ensures { AreFound (λ node. IsOf step node × G.meet graph.now node)
        seen.old next.old seen.new next.new }
{
    let mut rest = step.left;
    'lefts: while rest != 0 {
        let left = lowest(rest);
        let met = step.right & graph.meets(step.phase, left);
        let found = met & !seen.row(step.phase, left);
        seen.add(step.phase, left, found);
        next.add(step.phase, left, found);
        rest = without_lowest(rest);
    }
}
