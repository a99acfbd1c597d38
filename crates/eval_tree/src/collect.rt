//! The calls of a collect, and its starts.
ghost use Rattle.std.specs.Prelude.{◌≡◌, ◌↔◌, ℕ, List, None, IfOk, IsTrue};
ghost use Rattle.predicates.specs.Plain as predicates;
ghost use Rattle.predicates.specs.Predicates.{Predicate};
ghost use Rattle.rate_expr.specs.Rates as rates;
ghost use Rattle.query_model.specs.Queries.{collect, plain_of};
ghost use Rattle.eval_nodes.specs.Plain.{holding_of, seen_of};
ghost use Rattle.step_laws.specs.Calls.{HasStarted, HasStepped, found_in};
ghost use Rattle.step_laws.specs.Pushes.{AddsStart, ArePushed, BeginsAt, CanMake, CanPassBy};
ghost use Rattle.step_laws.specs.Pushes.{CanPushAll, CanTrack, IsNew, PassesBy};
ghost use Rattle.step_laws.specs.Steps.{CanStart, CanStep};

use crate::keys::keys_push;
use crate::steps::start_into;
use crate::tables::{first_table, tabled};
use eval_nodes::{Node, Progress, State};
use item_schema::Item;
use joined_texts::Joined;
use map_collect::{Keys, Tracks};
use new_nodes::new_node;
use predicates::Pred;
use query_model::Query;
use rate_expr::State as RateState;
use std::alloc::{AllocError, Global};
use step_laws::{Hit, value_of};

#[cycle(step)]
#[tactic(auto, using(step_laws::proofs::Unsound::unlike_collect))]
#[inline(always)]
pub(crate) fn start_collect(
    inner: &Query,
    node: &mut Node,
    alloc: Global,
    at: u64,
    hit: &mut Option<Hit>,
) -> Result<(), AllocError>
    requires none { hit.old ≡ None }
    requires can { (chosen : List ℕ) × (sync : Predicate) × (rate : rates.Regex) × CanStart seen_of
        (collect chosen sync rate (plain_of inner.now.shape)) (holding_of node.old.state) at }
    ensures { (chosen : List ℕ) (sync : Predicate) (rate : rates.Regex) → HasStarted seen_of
        (collect chosen sync rate (plain_of inner.now.shape)) (holding_of node.old.state) at
        (holding_of node.new.state) (found_in result hit.new) }
{
    match &mut node.state {
        State::Collect(tracks, _) => begin_at(inner, tracks, alloc, at, hit),
        _ => unreachable!(),
    }
}

#[cycle(step)]
#[tactic(auto, using(step_laws::proofs::Unsound::unlike_collect))]
#[inline(always)]
pub(crate) fn step_collect(
    inner: &Query,
    columns: &[u32],
    sync: &Pred,
    node: &mut Node,
    alloc: Global,
    item: &Item,
    hit: &mut Option<Hit>,
) -> Result<(), AllocError>
    requires none { hit.old ≡ None }
    requires can { (rate : rates.Regex) × (now : ℕ) × CanStep seen_of
        (collect columns.now (predicates.plain_of sync.now) rate (plain_of inner.now.shape))
        (holding_of node.old.state) now item.now }
    ensures { (rate : rates.Regex) (now : ℕ) → HasStepped seen_of
        (collect columns.now (predicates.plain_of sync.now) rate (plain_of inner.now.shape))
        (holding_of node.old.state) now item.now (holding_of node.new.state)
        (found_in result hit.new) }
{
    match &mut node.state {
        State::Collect(tracks, joined) => {
            pass_by(inner, tracks, alloc, columns, joined, sync, item, hit)
        }
        _ => unreachable!(),
    }
}

/// The item goes by at each start. The hit is the table of the first start from which the word is
/// in the rate, and only the live starts stay.
#[cycle(step)]
fn pass_by(
    query: &Query,
    tracks: &mut Tracks<Progress>,
    alloc: Global,
    columns: &[u32],
    joined: &mut Joined,
    sync: &Pred,
    item: &Item,
    hit: &mut Option<Hit>,
) -> Result<(), AllocError>
    requires none { hit.old ≡ None }
    requires can { CanPassBy seen_of (plain_of query.now.shape) tracks.old item.now }
    ensures { IfOk result (λ done. PassesBy seen_of (plain_of query.now.shape) columns.now
        (predicates.plain_of sync.now) item.now tracks.old tracks.new hit.new) }
{
    tracks.advance(item);
    push_all(query, tracks, alloc, columns, joined, sync, item)?;
    // A start that is no longer live may end here, so its table is made before dead starts are
    // dropped.
    *hit = tabled(tracks, alloc)?;
    tracks.keep();
    Ok(())
}

/// The item goes by at the keys of each start.
#[cycle(step)]
fn push_all(
    query: &Query,
    tracks: &mut Tracks<Progress>,
    alloc: Global,
    columns: &[u32],
    joined: &mut Joined,
    sync: &Pred,
    item: &Item,
) -> Result<(), AllocError>
    requires { CanPushAll seen_of (plain_of query.now.shape) tracks.old.tracks item.now }
    ensures pushed { IfOk result (λ done. ArePushed seen_of (plain_of query.now.shape) columns.now
        (predicates.plain_of sync.now) item.now tracks.old.tracks tracks.new.tracks) }
    ensures nfa { IfOk result (λ done. tracks.new.nfa ≡ tracks.old.nfa) }
{
    'starts: for i in 0..tracks.len() {
        keys_push(
            query,
            tracks.keys_mut(i),
            alloc,
            columns,
            joined,
            sync,
            item,
        )?;
    }
    Ok(())
}

/// Adds a start. It has the empty table if the empty word is in the rate.
#[cycle(step)]
fn begin_at(
    query: &Query,
    tracks: &mut Tracks<Progress>,
    alloc: Global,
    at: u64,
    hit: &mut Option<Hit>,
) -> Result<(), AllocError>
    requires none { hit.old ≡ None }
    requires can { CanMake (plain_of query.now.shape) }
    ensures { IfOk result (λ done. BeginsAt seen_of (plain_of query.now.shape) tracks.old at
        tracks.new hit.new) }
{
    track(query, tracks, alloc, at)?;
    *hit = first_table(tracks, alloc, at);
    Ok(())
}

/// Puts the start in if a word of the rate can begin there. If the starts are apart (`AreApart`),
/// it is not there yet.
#[cycle(step)]
fn track(
    query: &Query,
    tracks: &mut Tracks<Progress>,
    alloc: Global,
    at: u64,
) -> Result<(), AllocError>
    requires { CanMake (plain_of query.now.shape) }
    ensures { IfOk result (λ done. AddsStart seen_of (plain_of query.now.shape) tracks.old at
        tracks.new) }
{
    if !can_track(tracks, at) {
        return Ok(());
    }
    let fresh = new_runner(query, alloc)?;
    let keys = Keys::new(alloc, fresh);
    tracks.put(at, RateState::Initial, keys)?;
    Ok(())
}

/// Whether a word of the rate can begin there, and the start is not there yet.
fn can_track(tracks: &Tracks<Progress>, at: u64) -> bool
    ensures { IsTrue result ↔ CanTrack tracks.now at }
{
    tracks.nfa().extends(RateState::Initial) && tracks.place(at).is_none()
}

#[cycle(step)]
fn new_runner(query: &Query, alloc: Global) -> Result<Progress, AllocError>
    requires { CanMake (plain_of query.now.shape) }
    ensures { IfOk result (IsNew seen_of (plain_of query.now.shape)) }
{
    let mut node = new_node(alloc, query, None)?;
    let mut hit = None;
    match start_into(query, &mut node, alloc, 0, &mut hit) {
        Ok(()) => Ok(Progress {
            node,
            position: 0,
            answer: value_of(hit),
        }),
        Err(error) => {
            drop(node);
            Err(error)
        }
    }
}
