//! A list of the live starts of a collect.
ghost use Rattle.std.specs.Prelude.{◌≡◌, ◌<◌, ◌++◌, [], ◌∷◌, length, slice_get, Some, OnOk, OnErr};
ghost use Rattle.runner_snapshot.specs.Got.{Gets};

use crate::number_bytes::{put_count, put_number, put_state};
use crate::output::Output;
use crate::{KeyDumps, RunnerDump, State};
use std::alloc::{AllocError, Global};

/// A start with the state of the rate's automaton, the runner for later keys, and those for keys.
#[derive(Drop)]
#[cycle(dump)]
struct TrackDump {
    start: u64,
    state: State,
    fallback: RunnerDump,
    keys: KeyDumps,
}

/// Starts, each with a state, the runner that is copied for later keys, and the runners for keys.
#[derive(Drop)]
#[cycle(dump)]
pub struct TrackDumps {
    tracks: Vec<TrackDump>,
}

impl TrackDumps {
    ghost use Rattle.std.specs.List.{flat_map};
    ghost use Rattle.runner_snapshot.specs.Bytes.{tracks_bytes};
    ghost use Rattle.runner_snapshot.specs.Plain.{plain_keys, plain_runner, plain_tracks};
    ghost use Rattle.runner_snapshot.specs.Plain.{tracks_of};
    ghost use Rattle.runner_snapshot.specs.Written.{start_bytes};

    /// None, which take no memory.
    pub fn new(alloc: Global) -> TrackDumps
        ensures { tracks_of result ≡ [] }
    {
        TrackDumps {
            tracks: Vec::new(alloc),
        }
    }

    pub fn len(&self) -> usize
        ensures { result ≡ length (tracks_of self.now) }
    {
        self.tracks.len()
    }

    pub fn push(
        &mut self,
        start: u64,
        state: State,
        fallback: RunnerDump,
        keys: KeyDumps,
    ) -> Result<(), AllocError>
        ensures ok { OnOk result (tracks_of self.new ≡ tracks_of self.old
            ++ record {
              start = start;
              state = state;
              fallback = plain_runner fallback;
              keys = plain_keys keys;
            } ∷ []) }
        ensures err { OnErr result (tracks_of self.new ≡ tracks_of self.old) }
    {
        self.tracks.push(TrackDump {
            start,
            state,
            fallback,
            keys,
        })?;
        Ok(())
    }

    /// The start, its state, the runner for later keys and those for keys, at `i`.
    pub fn get(&self, i: usize) -> (u64, State, &RunnerDump, &KeyDumps)
        requires { i < length (tracks_of self.now) }
        ensures { slice_get (tracks_of self.now) i ≡ Some (record {
          start = result.0;
          state = result.1;
          fallback = plain_runner result.2.now;
          keys = plain_keys result.3.now;
        }) }
    {
        let track = &self.tracks[i];
        (track.start, track.state, &track.fallback, &track.keys)
    }

    #[cycle(write)]
    fn put_all<O: Output>(tracks: &[TrackDump], out: &mut O) -> Result<(), AllocError>
        ensures { OnOk result (Gets O.got out.old (flat_map start_bytes tracks.now) out.new) }
    {
        'tracks: for track in tracks {
            put_number(track.start, out)?;
            put_state(track.state, out)?;
            track.fallback.write(out)?;
            track.keys.write(out)?;
        }
        Ok(())
    }

    /// Appends the starts after their count.
    #[cycle(write)]
    pub(crate) fn write<O: Output>(&self, out: &mut O) -> Result<(), AllocError>
        ensures { OnOk result (Gets O.got out.old (tracks_bytes (plain_tracks self.now)) out.new) }
    {
        put_count(self.tracks.len(), out)?;
        TrackDumps::put_all(&self.tracks, out)
    }
}
