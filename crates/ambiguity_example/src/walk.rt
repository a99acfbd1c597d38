//! A shortest walk of a graph to an end.
ghost use Rattle.std.specs.Prelude.{◌≡◌, ◌<◌, ◌↔◌, ◌^◌, ℕ, [], IfOk, IsTrue, MatchOption, length};
ghost use Rattle.ambiguity_check.specs.Lengths.{EndsAfter};
ghost use Rattle.ambiguity_check.specs.Levels.{IsLevel, IsShortest};
ghost use Rattle.ambiguity_check.specs.Walks.{IsIn, IsOf};
ghost use Rattle.ambiguity_example.specs.Known.{AreKnown, IsFirstEnd};
ghost use Rattle.ambiguity_example.specs.WalkLists.{IsWalkOf, IsShortestWalk};

use crate::level_ends::end_in;
use crate::reached_nodes::{Reached, add_level};
use ambiguity_check::{Graph, Move, Moves, Node, Search};
use rate_expr::masks::{has, only};
use std::alloc::{AllocError, Global};

/// The nodes of a shortest walk to one of the ends, if there is one.
pub(crate) fn shortest_walk<G: Graph>(
    alloc: Global,
    graph: &G,
    ends: Moves,
) -> Result<Option<Vec<Node>>, AllocError>
    ensures { IfOk result (λ found. MatchOption found
        ((items : ℕ) → EndsAfter (G.begins graph.now) (G.continues graph.now) (G.meet graph.now)
        (IsIn ends) items → ⊥)
        (λ walk. IsShortestWalk (G.begins graph.now) (G.continues graph.now) (G.meet graph.now)
        (IsIn ends) walk.items)) }
{
    let mut reached = Vec::new(alloc);
    match first_end(alloc, graph, ends, &mut reached)? {
        Some(end) => Ok(Some(walk_to(alloc, graph, &reached, end.node, end.items)?)),
        None => Ok(None),
    }
}

// The first end that the search comes to. All nodes of the levels before it are added to `reached`.
fn first_end<G: Graph>(
    alloc: Global,
    graph: &G,
    ends: Moves,
    reached: &mut Vec<Reached>,
) -> Result<Option<Reached>, AllocError>
    requires { reached.old.items ≡ [] }
    ensures { IfOk result (λ found. MatchOption found
        ((items : ℕ) → EndsAfter (G.begins graph.now) (G.continues graph.now) (G.meet graph.now)
        (IsIn ends) items → ⊥)
        (IsFirstEnd (G.begins graph.now) (G.continues graph.now) (G.meet graph.now) (IsIn ends)
        reached.new.items)) }
{
    let mut search = begun(alloc, graph)?;
    let mut items = 1u32;
    'levels: while !search.is_over() {
        if let Some(node) = end_in(search.latest(), ends) {
            return Ok(Some(Reached { node, items }));
        }
        items = add_level(reached, search.latest(), items)?;
        search.advance(graph);
    }
    Ok(None)
}

fn begun<G: Graph>(alloc: Global, graph: &G) -> Result<Box<Search>, AllocError>
    ensures { IfOk result (λ search. IsLevel (G.begins graph.now) (G.continues graph.now)
        (G.meet graph.now) 1 search.value) }
{
    let search = Search::begin(alloc, graph)?;
    Ok(Box::new(alloc, search)?)
}

// The nodes of a shortest walk to a node. They are found backwards, among the nodes of the levels
// before its own.
fn walk_to<G: Graph>(
    alloc: Global,
    graph: &G,
    reached: &[Reached],
    end: Node,
    items: u32,
) -> Result<Vec<Node>, AllocError>
    requires known { AreKnown (G.begins graph.now) (G.continues graph.now) (G.meet graph.now)
        items reached.now }
    requires end { IsShortest (G.begins graph.now) (G.continues graph.now) (G.meet graph.now)
        items end }
    ensures walk { IfOk result (λ walk. IsWalkOf (G.begins graph.now) (G.continues graph.now)
        (G.meet graph.now) (λ node. node ≡ end) walk.items) }
    ensures length { IfOk result (λ walk. length walk.items ≡ items) }
    ensures few { IfOk result (λ walk. length walk.items < 2 ^ 32) }
{
    let mut walk = Vec::new(alloc);
    walk.push(end)?;
    let mut first = Reached { node: end, items };
    'back: for at in (0..reached.len()).rev() {
        let before = reached[at];
        if before.items + 1 == first.items && leads(graph, before.node, first.node) {
            walk.push(before.node)?;
            first = before;
        }
    }
    walk.reverse();
    Ok(walk)
}

fn leads<G: Graph>(graph: &G, before: Node, node: Node) -> bool
    requires { before.right < 128 }
    ensures { IsTrue result ↔ G.continues graph.now before node }
{
    let moves = graph.moves(before.phase, before.left, only(before.right));
    if is_of(moves.stay, node) {
        return true;
    }
    match moves.turn {
        Some(turn) => is_of(turn, node),
        None => false,
    }
}

fn is_of(nodes: Move, node: Node) -> bool
    ensures { IsTrue result ↔ IsOf nodes node }
{
    node.phase == nodes.phase && has(nodes.left, node.left) && has(nodes.right, node.right)
}
