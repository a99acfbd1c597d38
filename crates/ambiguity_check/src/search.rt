//! The search for all nodes that walks of a graph lead to, level by level.
ghost use Rattle.std.specs.Prelude.{◌≡◌, ◌+◌, ◌<◌, ◌≤◌, IfOk, ℕ, MatchBool, sum};
ghost use Rattle.ambiguity_check.specs.declared.graph.Node.{Node};
ghost use Rattle.ambiguity_check.specs.Marked.{IsMarked, room};
ghost use Rattle.ambiguity_check.specs.Levels.{IsLevel};

use crate::graph::Graph;
use crate::level::{mark_level, mark_moves};
use crate::marks::Marks;
use std::alloc::{AllocError, Global};
use std::marker::Model;
use std::mem;

/// A breadth-first search: the nodes that were seen so far, and those of the latest level, to which
/// no shorter walk leads.
#[derive(Drop)]
pub struct Search {
    seen: Marks,
    latest: Marks,
    // Room in which the next level is gathered.
    next: Marks,
}

impl Model for Search {
    ghost use Rattle.ambiguity_check.specs.Levels.{Searched};

    ghost Value = { Searched };

    ghost view = { λ s. record { seen = s.seen; latest = s.latest } };
}

impl Search {
    /// The search after one item.
    pub fn begin<G: Graph>(alloc: Global, graph: &G) -> Result<Search, AllocError>
        ensures { IfOk result
            (IsLevel (G.begins graph.now) (G.continues graph.now) (G.meet graph.now) 1) }
    {
        let mut seen = Marks::new(alloc)?;
        let mut latest = Marks::new(alloc)?;
        mark_moves(graph, graph.starts(), &mut seen, &mut latest);
        Ok(Search {
            seen,
            latest,
            next: Marks::new(alloc)?,
        })
    }

    /// Searches one item further.
    pub fn advance<G: Graph>(&mut self, graph: &G)
        ensures level { (items : ℕ)
            → IsLevel (G.begins graph.now) (G.continues graph.now) (G.meet graph.now) items self.old
            → IsLevel (G.begins graph.now) (G.continues graph.now) (G.meet graph.now)
            (items + 1) self.new }
        ensures fewer { room self.new.seen + sum self.new.latest ≤ room self.old.seen }
    {
        self.next.clear();
        mark_level(graph, &self.latest, &mut self.seen, &mut self.next);
        mem::swap(&mut self.latest, &mut self.next);
    }

    /// Whether the last item led to no new node. Then more items lead to none either.
    pub fn is_over(&self) -> bool
        ensures { MatchBool result ((node : Node) → IsMarked self.now.latest node → ⊥)
            ((node : Node) × IsMarked self.now.latest node) }
    {
        self.latest.is_empty()
    }

    pub(crate) fn into_seen(self) -> Marks
        ensures { result ≡ self.seen }
    {
        self.seen
    }

    /// The nodes to which walks lead of at most the items so far.
    pub fn seen(&self) -> &Marks
        ensures { result.now ≡ self.now.seen }
    {
        &self.seen
    }

    /// The nodes that are new since the last item.
    pub fn latest(&self) -> &Marks
        ensures { result.now ≡ self.now.latest }
    {
        &self.latest
    }
}
