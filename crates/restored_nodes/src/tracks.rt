//! The starts of a collect are put back.
ghost use Rattle.std.specs.Prelude.{◌≡◌, [], IfOk, List, None, OnOk, map};
ghost use Rattle.std.specs.List.{AllByRecursion, AllZip};
ghost use Rattle.std.specs.Option.{option_copied, option_map};
ghost use Rattle.std.specs.Rc.{rc_value};
ghost use Rattle.item_schema.specs.declared.column.Column.{Column};
ghost use Rattle.rate_expr.specs.After.{IsStateOf};
ghost use Rattle.rate_expr.specs.FirstLastFollow.{AreSetsOf};
ghost use Rattle.rate_expr.specs.Plain as rates;
ghost use Rattle.query_model.specs.Queries.{plain_of};
ghost use Rattle.eval_nodes.specs.Plain.{seen_of};
ghost use Rattle.eval_nodes.specs.Starts.{AreDifferent};
ghost use Rattle.eval_nodes.specs.Streams.{AreColumnsOf, CanReadWith};
ghost use Rattle.runner_snapshot.specs.Dumps.{keyed_list};
ghost use Rattle.runner_snapshot.specs.Plain.{tracks_of};
ghost use Rattle.eval_snapshot.specs.Fits.{FitsState};
ghost use Rattle.restored_nodes.specs.Cells.{CanBePutBack};
ghost use Rattle.restored_nodes.specs.Restored.{IsRestoredTrack};
ghost use Rattle.restored_nodes.specs.Rooms.{HasRoom, HaveKeyRoom};

use crate::keys::restored_keys;
use eval_nodes::Progress;
use map_collect::Tracks;
use new_nodes::no_tracks;
use predicate_cells::Cells;
use query_model::Query;
use rate_expr::Rate;
use runner_snapshot::TrackDumps;
use std::alloc::{AllocError, Global};
use std::rc::Rc;

/// The starts, in the automaton of the rate.
#[cycle(restore)]
pub(crate) fn restored_tracks(
    alloc: Global,
    rate: &Rate,
    query: &Query,
    cells: Option<&Rc<Cells>>,
    dumps: &TrackDumps,
) -> Result<Tracks<Progress>, AllocError>
    requires rate { CanReadWith (option_map rc_value (option_copied cells))
        (rates.plain_of rate.now) }
    requires query { CanBePutBack None (plain_of query.now.shape) }
    requires distinct { AreDifferent (map (λ one. one.start) (tracks_of dumps.now)) }
    requires states { AllByRecursion (λ one. FitsState (rates.plain_of rate.now) one.state)
        (tracks_of dumps.now) }
    requires room { AllByRecursion (λ one. HaveKeyRoom (HasRoom (plain_of query.now.shape))
        one.fallback (keyed_list one.keys)) (tracks_of dumps.now) }
    ensures rate { IfOk result (λ all. AreSetsOf all.nfa.sets (rates.plain_of rate.now)) }
    ensures columns { IfOk result (λ all. (columns : List Column)
        → AreColumnsOf (option_map rc_value (option_copied cells.entry)) columns
        → all.nfa.cells.layout.columns ≡ columns) }
    ensures tracks { IfOk result (λ all. AllZip
        (IsRestoredTrack seen_of (plain_of query.now.shape)) (tracks_of dumps.now) all.tracks) }
{
    let mut tracks = no_tracks(alloc, rate, cells)?;
    match put_tracks(alloc, query, dumps, &mut tracks) {
        Ok(()) => Ok(tracks),
        Err(error) => {
            drop(tracks);
            Err(error)
        }
    }
}

#[cycle(restore)]
fn put_tracks(
    alloc: Global,
    query: &Query,
    dumps: &TrackDumps,
    tracks: &mut Tracks<Progress>,
) -> Result<(), AllocError>
    requires none { tracks.old.tracks ≡ [] }
    requires query { CanBePutBack None (plain_of query.now.shape) }
    requires distinct { AreDifferent (map (λ one. one.start) (tracks_of dumps.now)) }
    requires states { AllByRecursion (λ one. IsStateOf tracks.old.nfa.sets one.state)
        (tracks_of dumps.now) }
    requires room { AllByRecursion (λ one. HaveKeyRoom (HasRoom (plain_of query.now.shape))
        one.fallback (keyed_list one.keys)) (tracks_of dumps.now) }
    ensures nfa { tracks.new.nfa ≡ tracks.old.nfa }
    ensures tracks { OnOk result (AllZip (IsRestoredTrack seen_of (plain_of query.now.shape))
        (tracks_of dumps.now) tracks.new.tracks) }
{
    'tracks: for i in 0..dumps.len() {
        let (start, state, fallback, others) = dumps.get(i);
        let keys = restored_keys(alloc, query, fallback, others)?;
        tracks.put(start, state, keys)?;
    }
    Ok(())
}
