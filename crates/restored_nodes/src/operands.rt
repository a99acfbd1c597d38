//! A node of each shape is put back, made of the nodes of its operands.
ghost use Rattle.std.specs.Prelude.{◌≤◌, ◌+◌, ℕ, ℤ, IfOk, List, None, Option, length, map};
ghost use Rattle.std.specs.List.{AllByRecursion};
ghost use Rattle.std.specs.Option.{option_copied, option_map};
ghost use Rattle.std.specs.Rc.{rc_value};
ghost use Rattle.expressions.specs.Expressions.{Expression};
ghost use Rattle.predicates.specs.Predicates.{Predicate};
ghost use Rattle.predicate_cells.specs.Cells.{Partition};
ghost use Rattle.rate_expr.specs.Plain as rates;
ghost use Rattle.query_model.specs.Bounds.{places_of, slots_of};
ghost use Rattle.query_model.specs.Queries as query;
ghost use Rattle.query_model.specs.Queries.{plain_of};
ghost use Rattle.query_model.specs.Sizes.{max_slots};
ghost use Rattle.eval_nodes.specs.Plain.{holding_of, seen_of};
ghost use Rattle.eval_nodes.specs.Starts.{AreDifferent};
ghost use Rattle.eval_nodes.specs.Streams.{CanReadWith};
ghost use Rattle.runner_snapshot.specs.Dumps.{apply, atom, choice, collect, combine, compose, iter};
ghost use Rattle.runner_snapshot.specs.Dumps.{keyed_list, split};
ghost use Rattle.runner_snapshot.specs.Plain.{plain_node, plain_runners, plain_tracks, runners_of};
ghost use Rattle.runner_snapshot.specs.Plain.{tracks_of};
ghost use Rattle.eval_snapshot.specs.Fits.{FitsState};
ghost use Rattle.restored_nodes.specs.Cells.{CanBePutBack};
ghost use Rattle.restored_nodes.specs.Restored.{IsRestored};
ghost use Rattle.restored_nodes.specs.Rooms.{AreFewFed, AreFewWaiting, HasRoom, HaveKeyRoom};

use crate::entries::{restored_entries, restored_start};
use crate::nodes::boxed_node;
use crate::runners::{live_runners, rest_in_other_places};
use crate::tracks::restored_tracks;
use eval_nodes::{Node, State};
use iter_eval::Chain;
use joined_texts::Joined;
use memory_bound::places;
use predicate_cells::Cells;
use query_model::Query;
use rate_expr::Rate;
use runner_snapshot::{Entries, NodeDump, Runners, Starts, TrackDumps};
use std::alloc::{AllocError, Global};
use std::rc::Rc;

pub(crate) fn restored_atom(starts: &Starts) -> Node
    requires { length starts.now ≤ 1 }
    ensures { (cells : Option Partition) (pred : Predicate) (expression : Expression)
        → IsRestored seen_of cells (query.atom pred expression) (atom starts.now)
        (holding_of result.state) }
{
    Node {
        state: State::Atom(restored_start(starts)),
    }
}

#[cycle(restore)]
pub(crate) fn restored_choice(
    alloc: Global,
    left: &Query,
    right: &Query,
    cells: Option<&Rc<Cells>>,
    a: &NodeDump,
    b: &NodeDump,
) -> Result<Node, AllocError>
    requires left { CanBePutBack (option_map rc_value (option_copied cells))
        (plain_of left.now.shape) }
    requires right { CanBePutBack (option_map rc_value (option_copied cells))
        (plain_of right.now.shape) }
    requires room { HasRoom (plain_of left.now.shape) (plain_node a.now)
        × HasRoom (plain_of right.now.shape) (plain_node b.now) }
    ensures { IfOk result (λ node. IsRestored seen_of
        (option_map rc_value (option_copied cells.entry))
        (query.choice (plain_of left.now.shape) (plain_of right.now.shape))
        (choice (plain_node a.now) (plain_node b.now)) (holding_of node.state)) }
{
    let a = boxed_node(alloc, left, cells, a)?;
    let b = boxed_node(alloc, right, cells, b)?;
    Ok(Node {
        state: State::Or(a, b),
    })
}

#[cycle(restore)]
pub(crate) fn restored_combine(
    alloc: Global,
    left: &Query,
    right: &Query,
    cells: Option<&Rc<Cells>>,
    a: &NodeDump,
    b: &NodeDump,
) -> Result<Node, AllocError>
    requires left { CanBePutBack (option_map rc_value (option_copied cells))
        (plain_of left.now.shape) }
    requires right { CanBePutBack (option_map rc_value (option_copied cells))
        (plain_of right.now.shape) }
    requires room { HasRoom (plain_of left.now.shape) (plain_node a.now)
        × HasRoom (plain_of right.now.shape) (plain_node b.now) }
    ensures { IfOk result (λ node. (expression : Expression) → IsRestored seen_of
        (option_map rc_value (option_copied cells.entry))
        (query.combine (plain_of left.now.shape) (plain_of right.now.shape) expression)
        (combine (plain_node a.now) (plain_node b.now)) (holding_of node.state)) }
{
    let a = boxed_node(alloc, left, cells, a)?;
    let b = boxed_node(alloc, right, cells, b)?;
    Ok(Node {
        state: State::Combine(a, b),
    })
}

#[cycle(restore)]
pub(crate) fn restored_apply(
    alloc: Global,
    inner: &Query,
    cells: Option<&Rc<Cells>>,
    a: &NodeDump,
) -> Result<Node, AllocError>
    requires inner { CanBePutBack (option_map rc_value (option_copied cells))
        (plain_of inner.now.shape) }
    requires room { HasRoom (plain_of inner.now.shape) (plain_node a.now) }
    ensures { IfOk result (λ node. (expression : Expression) → IsRestored seen_of
        (option_map rc_value (option_copied cells.entry))
        (query.apply (plain_of inner.now.shape) expression)
        (apply (plain_node a.now)) (holding_of node.state)) }
{
    let a = boxed_node(alloc, inner, cells, a)?;
    Ok(Node {
        state: State::Apply(a),
    })
}

#[cycle(restore)]
pub(crate) fn restored_split(
    alloc: Global,
    left: &Query,
    right: &Query,
    cells: Option<&Rc<Cells>>,
    a: &NodeDump,
    b: &NodeDump,
    entries: &Entries,
) -> Result<Node, AllocError>
    requires left { CanBePutBack (option_map rc_value (option_copied cells))
        (plain_of left.now.shape) }
    requires right { CanBePutBack (option_map rc_value (option_copied cells))
        (plain_of right.now.shape) }
    requires room { HasRoom (plain_of left.now.shape) (plain_node a.now)
        × HasRoom (plain_of right.now.shape) (plain_node b.now) }
    requires entries { AreFewWaiting (places_of (plain_of right.now.shape)) entries.now }
    ensures { IfOk result (λ node. (expression : Expression) → IsRestored seen_of
        (option_map rc_value (option_copied cells.entry))
        (query.split (plain_of left.now.shape) (plain_of right.now.shape) expression)
        (split (plain_node a.now) (plain_node b.now) entries.now) (holding_of node.state)) }
{
    let a = boxed_node(alloc, left, cells, a)?;
    let b = boxed_node(alloc, right, cells, b)?;
    let held = restored_entries(alloc, places(right), entries)?;
    Ok(Node {
        state: State::Split(a, b, held),
    })
}

#[cycle(restore)]
pub(crate) fn restored_iter(
    alloc: Global,
    inner: &Query,
    cells: Option<&Rc<Cells>>,
    a: &NodeDump,
    entries: &Entries,
) -> Result<Node, AllocError>
    requires inner { CanBePutBack (option_map rc_value (option_copied cells))
        (plain_of inner.now.shape) }
    requires room { HasRoom (plain_of inner.now.shape) (plain_node a.now) }
    requires entries { AreFewWaiting (places_of (plain_of inner.now.shape)) entries.now }
    ensures { IfOk result (λ node. (number : ℤ) (expression : Expression) → IsRestored seen_of
        (option_map rc_value (option_copied cells.entry))
        (query.iter (plain_of inner.now.shape) number expression)
        (iter (plain_node a.now) entries.now) (holding_of node.state)) }
{
    let a = boxed_node(alloc, inner, cells, a)?;
    let so_far = Chain::from_pending(restored_entries(alloc, places(inner), entries)?);
    Ok(Node {
        state: State::Iter(a, so_far),
    })
}

#[cycle(restore)]
pub(crate) fn restored_compose(
    alloc: Global,
    left: &Query,
    right: &Query,
    cells: Option<&Rc<Cells>>,
    a: &NodeDump,
    runners: &Runners,
) -> Result<Node, AllocError>
    requires left { CanBePutBack (option_map rc_value (option_copied cells))
        (plain_of left.now.shape) }
    requires right { CanBePutBack None (plain_of right.now.shape) }
    requires room { HasRoom (plain_of left.now.shape) (plain_node a.now) }
    requires runners { AreFewFed (HasRoom (plain_of right.now.shape))
        (places_of (plain_of left.now.shape) + 1) (runners_of runners.now) }
    ensures { IfOk result (λ node. IsRestored seen_of
        (option_map rc_value (option_copied cells.entry))
        (query.compose (plain_of left.now.shape) (plain_of right.now.shape))
        (compose (plain_node a.now) (plain_runners runners.now)) (holding_of node.state)) }
{
    let a = boxed_node(alloc, left, cells, a)?;
    let mut held = live_runners(alloc, right, places(left).saturating_add(1), runners)?;
    rest_in_other_places(alloc, right, &mut held)?;
    Ok(Node {
        state: State::Compose(a, held),
    })
}

#[cycle(restore)]
pub(crate) fn restored_collect(
    alloc: Global,
    rate: &Rate,
    inner: &Query,
    cells: Option<&Rc<Cells>>,
    tracks: &TrackDumps,
) -> Result<Node, AllocError>
    requires rate { CanReadWith (option_map rc_value (option_copied cells))
        (rates.plain_of rate.now) }
    requires inner { CanBePutBack None (plain_of inner.now.shape) }
    requires distinct { AreDifferent (map (λ one. one.start) (tracks_of tracks.now)) }
    requires states { AllByRecursion (λ one. FitsState (rates.plain_of rate.now) one.state)
        (tracks_of tracks.now) }
    requires room { AllByRecursion (λ one. HaveKeyRoom (HasRoom (plain_of inner.now.shape))
        one.fallback (keyed_list one.keys)) (tracks_of tracks.now) }
    ensures { IfOk result (λ node. (chosen : List ℕ) (sync : Predicate)
        → slots_of (plain_of inner.now.shape) ≤ max_slots
        → IsRestored seen_of (option_map rc_value (option_copied cells.entry))
        (query.collect chosen sync (rates.plain_of rate.now) (plain_of inner.now.shape))
        (collect (plain_tracks tracks.now)) (holding_of node.state)) }
{
    let tracks = restored_tracks(alloc, rate, inner, cells, tracks)?;
    Ok(Node {
        state: State::Collect(tracks, Joined::new(alloc)),
    })
}
