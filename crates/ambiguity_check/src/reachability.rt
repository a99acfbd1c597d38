//! The search for all nodes that walks of a graph lead to.
ghost use Rattle.std.specs.Prelude.{IfOk};
ghost use Rattle.ambiguity_check.specs.Marked.{AreReached};

use crate::graph::Graph;
use crate::marks::Marks;
use crate::search::Search;
use std::alloc::{AllocError, Global};

pub(crate) fn reach<G: Graph>(alloc: Global, graph: &G) -> Result<Marks, AllocError>
    ensures { IfOk result
        (AreReached (G.begins graph.now) (G.continues graph.now) (G.meet graph.now)) }
{
    let mut search = Search::begin(alloc, graph)?;
    'levels: while !search.is_over() {
        search.advance(graph);
    }
    Ok(search.into_seen())
}
