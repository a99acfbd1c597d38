//! Reads runners and nodes.
ghost use Rattle.runner_snapshot.specs.Plain.{keys_of, plain_keys, plain_node, plain_runner};
ghost use Rattle.runner_snapshot.specs.Plain.{runners_of, tracks_of};
ghost use Rattle.runner_snapshot.specs.Reading.{counted_at, fed_at, Gives, keyed_at, node_at};
ghost use Rattle.runner_snapshot.specs.Reading.{node_of, pair_at, runner_at, starts_at, track_at};
ghost use Rattle.runner_snapshot.specs.Reading.{waiting_at};

use crate::reader::Reader;
use crate::tags::NodeTag;
use crate::{Entries, Flaw, KeyDumps, NodeDump, RunnerDump, Runners, SnapStop, Starts, TrackDumps};
use rate_expr::State;
use std::alloc::Global;
use value_ops::Value;

/// At most so many nodes are inside one another.
pub(crate) const MAX_LEVELS: u32 = 1024;

/// The operands of a node.
struct Operands {
    left: Box<NodeDump>,
    right: Box<NodeDump>,
}

impl Reader<'_> {
    #[tactic(auto, unfolding(crate::specs::Reading::starts_at))]
    fn starts(&mut self, alloc: Global) -> Result<Starts, SnapStop>
        ensures { Gives (λ starts. starts) result self.new.rest.now (starts_at self.old.rest.now) }
    {
        let mut starts = Starts::new(alloc);
        match self.byte()? {
            0 => Ok(starts),
            1 => {
                starts.push(self.number()?)?;
                Ok(starts)
            }
            _ => Err(SnapStop::Bad(Flaw::Form)),
        }
    }

    // The inner start, the outer start and the value.
    #[tactic(auto, unfolding(crate::specs::Reading::waiting_at))]
    fn waiting(&mut self, alloc: Global) -> Result<(u64, u64, Value), SnapStop>
        ensures { Gives (λ parts. record { inner = parts.0; outer = parts.1; value = parts.2 })
            result self.new.rest.now (waiting_at self.old.rest.now) }
    {
        let inner = self.number()?;
        let outer = self.number()?;
        let value = self.value(alloc)?;
        Ok((inner, outer, value))
    }

    #[tactic(auto, unfolding(crate::specs::Reading::counted_at))]
    fn entries(&mut self, alloc: Global) -> Result<Entries, SnapStop>
        ensures { Gives (λ entries. entries) result self.new.rest.now
            (counted_at waiting_at self.old.rest.now) }
    {
        let count = self.count()?;
        let mut entries = Entries::new(alloc);
        'entries: for _ in 0..count {
            let (inner, outer, value) = self.waiting(alloc)?;
            entries.push(inner, outer, value)?;
        }
        Ok(entries)
    }

    #[cycle(read)]
    #[tactic(auto, unfolding(crate::specs::Reading::runner_at))]
    pub(crate) fn runner(&mut self, alloc: Global, levels: u32) -> Result<RunnerDump, SnapStop>
        ensures { Gives plain_runner result self.new.rest.now
            (runner_at (node_at levels) self.old.rest.now) }
    {
        let position = self.number()?;
        let answer = self.answer(alloc)?;
        let node = self.node(alloc, levels)?;
        Ok(RunnerDump {
            position,
            answer,
            node,
        })
    }

    // A runner after its start.
    #[cycle(read)]
    #[tactic(auto, unfolding(crate::specs::Reading::fed_at))]
    fn instance(&mut self, alloc: Global, levels: u32) -> Result<(u64, RunnerDump), SnapStop>
        ensures { Gives (λ fed. record { outer = fed.0; runner = plain_runner fed.1 }) result
            self.new.rest.now (fed_at (node_at levels) self.old.rest.now) }
    {
        let outer = self.number()?;
        let dump = self.runner(alloc, levels)?;
        Ok((outer, dump))
    }

    #[cycle(read)]
    #[tactic(auto, unfolding(crate::specs::Reading::counted_at))]
    fn runners(&mut self, alloc: Global, levels: u32) -> Result<Runners, SnapStop>
        ensures { Gives runners_of result self.new.rest.now
            (counted_at (fed_at (node_at levels)) self.old.rest.now) }
    {
        let count = self.count()?;
        let mut runners = Runners::new(alloc);
        'runners: for _ in 0..count {
            let (outer, dump) = self.instance(alloc, levels)?;
            runners.push(outer, dump)?;
        }
        Ok(runners)
    }

    #[cycle(read)]
    #[tactic(auto, unfolding(crate::specs::Reading::counted_at))]
    fn keys(&mut self, alloc: Global, levels: u32) -> Result<KeyDumps, SnapStop>
        ensures { Gives keys_of result self.new.rest.now
            (counted_at (keyed_at (node_at levels)) self.old.rest.now) }
    {
        let count = self.count()?;
        let mut keys = KeyDumps::new(alloc);
        'keys: for _ in 0..count {
            let key = self.text()?;
            let dump = self.runner(alloc, levels)?;
            keys.push(key, dump)?;
        }
        Ok(keys)
    }

    // The start, its state, the runner for later keys and those for keys.
    #[cycle(read)]
    #[tactic(auto, unfolding(crate::specs::Reading::track_at, crate::specs::Reading::keys_at))]
    fn track(
        &mut self,
        alloc: Global,
        levels: u32,
    ) -> Result<(u64, State, RunnerDump, KeyDumps), SnapStop>
        ensures { Gives (λ track. record {
          start = track.0;
          state = track.1;
          fallback = plain_runner track.2;
          keys = plain_keys track.3;
        }) result
            self.new.rest.now (track_at (node_at levels) self.old.rest.now) }
    {
        let start = self.number()?;
        let state = self.state()?;
        let fallback = self.runner(alloc, levels)?;
        let keys = self.keys(alloc, levels)?;
        Ok((start, state, fallback, keys))
    }

    #[cycle(read)]
    #[tactic(auto, unfolding(crate::specs::Reading::counted_at))]
    fn tracks(&mut self, alloc: Global, levels: u32) -> Result<TrackDumps, SnapStop>
        ensures { Gives tracks_of result self.new.rest.now
            (counted_at (track_at (node_at levels)) self.old.rest.now) }
    {
        let count = self.count()?;
        let mut tracks = TrackDumps::new(alloc);
        'tracks: for _ in 0..count {
            let (start, state, fallback, keys) = self.track(alloc, levels)?;
            tracks.push(start, state, fallback, keys)?;
        }
        Ok(tracks)
    }

    #[cycle(read)]
    fn boxed_node(&mut self, alloc: Global, levels: u32) -> Result<Box<NodeDump>, SnapStop>
        ensures { Gives (λ node. plain_node node.value) result self.new.rest.now
            (node_at levels self.old.rest.now) }
    {
        let node = self.node(alloc, levels)?;
        Ok(Box::new(alloc, node)?)
    }

    #[cycle(read)]
    fn both_nodes(&mut self, alloc: Global, levels: u32) -> Result<Operands, SnapStop>
        ensures { Gives (λ two. (plain_node two.left.value, plain_node two.right.value)) result
            self.new.rest.now (pair_at (node_at levels) (node_at levels) self.old.rest.now) }
    {
        let left = self.boxed_node(alloc, levels)?;
        let right = self.boxed_node(alloc, levels)?;
        Ok(Operands { left, right })
    }

    /// A node in which at most so many nodes are inside one another.
    #[cycle(read)]
    fn node(&mut self, alloc: Global, levels: u32) -> Result<NodeDump, SnapStop>
        ensures { Gives plain_node result self.new.rest.now (node_at levels self.old.rest.now) }
    {
        if levels == 0 {
            return Err(SnapStop::Bad(Flaw::Form));
        }
        let byte = self.byte()?;
        match NodeTag::of(byte) {
            Some(tag) => self.node_after(alloc, levels - 1, tag),
            None => Err(SnapStop::Bad(Flaw::Form)),
        }
    }

    #[cycle(read)]
    #[tactic(auto, unfolding(crate::specs::Reading::node_of))]
    fn node_after(&mut self, alloc: Global, levels: u32, tag: NodeTag) -> Result<NodeDump, SnapStop>
        ensures { Gives plain_node result self.new.rest.now
            (node_of (node_at levels) (Some tag) self.old.rest.now) }
    {
        match tag {
            NodeTag::Atom => Ok(NodeDump::Atom(self.starts(alloc)?)),
            NodeTag::Eps => Ok(NodeDump::Eps),
            NodeTag::Or => {
                let Operands { left, right } = self.both_nodes(alloc, levels)?;
                Ok(NodeDump::Or(left, right))
            }
            NodeTag::Split => {
                let Operands { left, right } = self.both_nodes(alloc, levels)?;
                Ok(NodeDump::Split(left, right, self.entries(alloc)?))
            }
            NodeTag::Iter => {
                let inner = self.boxed_node(alloc, levels)?;
                Ok(NodeDump::Iter(inner, self.entries(alloc)?))
            }
            NodeTag::Combine => {
                let Operands { left, right } = self.both_nodes(alloc, levels)?;
                Ok(NodeDump::Combine(left, right))
            }
            NodeTag::Apply => Ok(NodeDump::Apply(self.boxed_node(alloc, levels)?)),
            NodeTag::Compose => {
                let left = self.boxed_node(alloc, levels)?;
                Ok(NodeDump::Compose(left, self.runners(alloc, levels)?))
            }
            NodeTag::Collect => Ok(NodeDump::Collect(self.tracks(alloc, levels)?)),
        }
    }
}
