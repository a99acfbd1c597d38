//! The lists of a dump.
ghost use Rattle.std.specs.Prelude.{◌≡◌, ◌<◌, length, map, IfOk, Some, slice_get};
ghost use Rattle.query_model.specs.Queries.{plain_of};
ghost use Rattle.runner_snapshot.specs.Plain.{keys_of, runners_of, tracks_of};
ghost use Rattle.eval_snapshot.specs.Dumped.{kept_entry, start_in};
ghost use Rattle.node_dumps.specs.Lists.{kept_keys, kept_runners, kept_tracks};

use crate::dumps::dump_of_runner;
use compose_eval::Instances;
use eval_nodes::Progress;
use map_collect::{Keys, Tracks};
use query_model::Query;
use runner_snapshot::{Entries, KeyDumps, Runners, Starts, TrackDumps};
use split_eval::Pending;
use std::alloc::{AllocError, Global};
use value_ops::Value;

/// The start, if there is one.
pub(crate) fn dumped_start(found: Option<u64>, alloc: Global) -> Result<Starts, AllocError>
    ensures { IfOk result (λ starts. starts ≡ start_in found) }
{
    let mut starts = Starts::new(alloc);
    if let Some(start) = found {
        starts.push(start)?;
    }
    Ok(starts)
}

/// The values that wait, in the same order.
pub(crate) fn dumped_entries(held: &Pending<Value>, alloc: Global) -> Result<Entries, AllocError>
    ensures { IfOk result (λ entries. entries ≡ map kept_entry held.now.entries) }
{
    let mut entries = Entries::new(alloc);
    'entries: for i in 0..held.len() {
        let entry = held.entry(i);
        entries.push(entry.inner, entry.outer, entry.value.try_copy(alloc)?)?;
    }
    Ok(entries)
}

/// The runners that are fed, each with its start; those that are idle are left out.
#[cycle(dump)]
pub(crate) fn dumped_runners(
    query: &Query,
    instances: &Instances<Progress>,
    alloc: Global,
) -> Result<Runners, AllocError>
    ensures { IfOk result (λ runners. runners_of runners
        ≡ kept_runners (plain_of query.now.shape) instances.now.live) }
{
    let mut runners = Runners::new(alloc);
    'live: for i in 0..instances.len() {
        let dump = dump_of_runner(query, instances.follower(i), alloc)?;
        runners.push(instances.outer(i), dump)?;
    }
    Ok(runners)
}

// The runners for keys, each with its key.
#[cycle(dump)]
fn dumped_keys(query: &Query, keys: &Keys<Progress>, alloc: Global) -> Result<KeyDumps, AllocError>
    ensures { IfOk result (λ dumps. keys_of dumps
        ≡ kept_keys (plain_of query.now.shape) keys.now) }
{
    let mut dumps = KeyDumps::new(alloc);
    'keys: for i in 0..keys.len() {
        let dump = dump_of_runner(query, keys.follower(i), alloc)?;
        dumps.push(keys.key(i), dump)?;
    }
    Ok(dumps)
}

/// The live starts of a collect.
#[cycle(dump)]
pub(crate) fn dumped_tracks(
    query: &Query,
    tracks: &Tracks<Progress>,
    alloc: Global,
) -> Result<TrackDumps, AllocError>
    ensures { IfOk result (λ dumps. tracks_of dumps
        ≡ kept_tracks (plain_of query.now.shape) tracks.now.tracks) }
{
    let mut dumps = TrackDumps::new(alloc);
    'starts: for i in 0..tracks.len() {
        let held = tracks.keys(i);
        let keys = dumped_keys(query, held, alloc)?;
        let fallback = dump_of_runner(query, held.fallback(), alloc)?;
        dumps.push(tracks.start(i), tracks.state(i), fallback, keys)?;
    }
    Ok(dumps)
}
