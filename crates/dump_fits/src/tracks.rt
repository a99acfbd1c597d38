//! Whether the starts of a collect fit.
ghost use Rattle.std.specs.Prelude.{◌≡◌, ◌≤◌, ◌<◌, Some, length, map, slice_get};
ghost use Rattle.std.specs.List.{AllByRecursion, IsDistinct};
ghost use Rattle.std.specs.Str.{bytes_eq};
ghost use Rattle.query_model.specs.Bounds.{inner_of};
ghost use Rattle.query_model.specs.Queries.{plain_of};
ghost use Rattle.query_model.specs.QueryTypes.{type_of};
ghost use Rattle.query_model.specs.Sizes.{max_slots};
ghost use Rattle.rate_expr.specs.Plain as rates;
ghost use Rattle.eval_nodes.specs.Starts.{AreDifferent};
ghost use Rattle.runner_snapshot.specs.Dumps.{Track};
ghost use Rattle.runner_snapshot.specs.Plain.{keys_of, tracks_of};
ghost use Rattle.eval_snapshot.specs.Fits.{FitsNode, FitsRunner, FitsTrack};
ghost use Rattle.dump_fits.specs.Streams.{columns_of};
ghost use Rattle.dump_fits.specs.Telling.{Tells};

use crate::runners::fits_runner;
use crate::states::fits_state;
use crate::stream::Stream;
use indexmap::IndexSet;
use query_model::Query;
use rate_expr::Rate;
use runner_snapshot::{KeyDumps, TrackDumps};
use std::alloc::{AllocError, Global};
use value_ops::Bytes;

/// Each fits and has a start of its own.
#[cycle(fit)]
pub(crate) fn fit_tracks(
    alloc: Global,
    rate: &Rate,
    query: &Query,
    stream: &Stream,
    position: u64,
    tracks: &TrackDumps,
) -> Result<bool, AllocError>
    requires { inner_of (plain_of query.now.shape) ≤ max_slots }
    ensures { Tells result (AreDifferent (map (λ one. one.start) (tracks_of tracks.now))
        × AllByRecursion (FitsTrack (FitsNode (columns_of stream.now) (plain_of query.now.shape))
        (type_of (columns_of stream.now) (plain_of query.now.shape)) (rates.plain_of rate.now)
        position) (tracks_of tracks.now)) }
{
    let mut starts = IndexSet::new(alloc);
    'tracks: for i in 0..tracks.len() {
        if !starts.insert(tracks.get(i).0)? {
            return Ok(false);
        }
        if !fits_track(alloc, rate, query, stream, position, tracks, i)? {
            return Ok(false);
        }
    }
    Ok(true)
}

#[cycle(fit)]
fn fits_track(
    alloc: Global,
    rate: &Rate,
    query: &Query,
    stream: &Stream,
    position: u64,
    tracks: &TrackDumps,
    i: usize,
) -> Result<bool, AllocError>
    requires there { i < length (tracks_of tracks.now) }
    requires small { inner_of (plain_of query.now.shape) ≤ max_slots }
    ensures { (one : Track) → slice_get (tracks_of tracks.now) i ≡ Some one → Tells result
        (FitsTrack (FitsNode (columns_of stream.now) (plain_of query.now.shape))
        (type_of (columns_of stream.now) (plain_of query.now.shape)) (rates.plain_of rate.now)
        position one) }
{
    let (start, state, fallback, keys) = tracks.get(i);
    if start > position || !fits_state(rate, state) || fallback.position > position {
        return Ok(false);
    }
    if !fits_runner(alloc, query, stream, fallback)? {
        return Ok(false);
    }
    fit_keys(alloc, query, stream, position, keys)
}

// Each fits and has a key of its own.
#[cycle(fit)]
fn fit_keys(
    alloc: Global,
    query: &Query,
    stream: &Stream,
    position: u64,
    keys: &KeyDumps,
) -> Result<bool, AllocError>
    requires { inner_of (plain_of query.now.shape) ≤ max_slots }
    ensures { Tells result (IsDistinct bytes_eq (map (λ one. one.key) (keys_of keys.now))
        × AllByRecursion (λ one. FitsRunner position
        (FitsNode (columns_of stream.now) (plain_of query.now.shape))
        (type_of (columns_of stream.now) (plain_of query.now.shape)) one.runner)
        (keys_of keys.now)) }
{
    let mut names = IndexSet::new(alloc);
    'keys: for i in 0..keys.len() {
        let (key, dump) = keys.get(i);
        if !names.insert(Bytes::from_slice(alloc, key)?)? {
            return Ok(false);
        }
        if dump.position > position || !fits_runner(alloc, query, stream, dump)? {
            return Ok(false);
        }
    }
    Ok(true)
}
