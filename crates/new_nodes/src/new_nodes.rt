//! A new node of each shape, made of the nodes of its operands.
ghost use Rattle.std.specs.Prelude.{◌≤◌, ℕ, ℤ, IfOk, None, List};
ghost use Rattle.std.specs.Option.{option_copied, option_map};
ghost use Rattle.std.specs.Rc.{rc_value};
ghost use Rattle.expressions.specs.Expressions.{Expression};
ghost use Rattle.predicates.specs.Predicates.{Predicate};
ghost use Rattle.rate_expr.specs.Plain as rates;
ghost use Rattle.query_model.specs.Queries.{Qre, apply, choice, collect, combine, compose, iter};
ghost use Rattle.query_model.specs.Queries.{plain_of, split};
ghost use Rattle.query_model.specs.Bounds.{inner_of};
ghost use Rattle.query_model.specs.Sizes.{max_slots};
ghost use Rattle.eval_nodes.specs.NewNodes.{CanBeNew, IsNewNode};
ghost use Rattle.eval_nodes.specs.Plain.{holding_of, seen_of};
ghost use Rattle.eval_nodes.specs.Streams.{CanReadWith};

use crate::automaton::no_tracks;
use crate::construction::{boxed_node, idle_runners};
use eval_nodes::{Node, State};
use iter_eval::Chain;
use joined_texts::Joined;
use memory_bound::places;
use predicate_cells::Cells;
use query_model::Query;
use rate_expr::Rate;
use split_eval::Pending;
use std::alloc::{AllocError, Global};
use std::rc::Rc;

#[cycle(make)]
pub(crate) fn new_choice(
    alloc: Global,
    first: &Query,
    second: &Query,
    cells: Option<&Rc<Cells>>,
) -> Result<Node, AllocError>
    requires first { CanBeNew (option_map rc_value (option_copied cells))
        (plain_of first.now.shape) }
    requires second { CanBeNew (option_map rc_value (option_copied cells))
        (plain_of second.now.shape) }
    ensures { IfOk result (λ node. IsNewNode seen_of
        (option_map rc_value (option_copied cells.entry))
        (choice (plain_of first.now.shape) (plain_of second.now.shape)) (holding_of node.state)) }
{
    let a = boxed_node(alloc, first, cells)?;
    let b = boxed_node(alloc, second, cells)?;
    Ok(Node {
        state: State::Or(a, b),
    })
}

#[cycle(make)]
pub(crate) fn new_combine(
    alloc: Global,
    first: &Query,
    second: &Query,
    cells: Option<&Rc<Cells>>,
) -> Result<Node, AllocError>
    requires first { CanBeNew (option_map rc_value (option_copied cells))
        (plain_of first.now.shape) }
    requires second { CanBeNew (option_map rc_value (option_copied cells))
        (plain_of second.now.shape) }
    ensures { IfOk result (λ node. (expression : Expression) → IsNewNode seen_of
        (option_map rc_value (option_copied cells.entry))
        (combine (plain_of first.now.shape) (plain_of second.now.shape) expression)
        (holding_of node.state)) }
{
    let a = boxed_node(alloc, first, cells)?;
    let b = boxed_node(alloc, second, cells)?;
    Ok(Node {
        state: State::Combine(a, b),
    })
}

#[cycle(make)]
pub(crate) fn new_apply(
    alloc: Global,
    inner: &Query,
    cells: Option<&Rc<Cells>>,
) -> Result<Node, AllocError>
    requires { CanBeNew (option_map rc_value (option_copied cells))
        (plain_of inner.now.shape) }
    ensures { IfOk result (λ node. (expression : Expression) → IsNewNode seen_of
        (option_map rc_value (option_copied cells.entry))
        (apply (plain_of inner.now.shape) expression) (holding_of node.state)) }
{
    let a = boxed_node(alloc, inner, cells)?;
    Ok(Node {
        state: State::Apply(a),
    })
}

/// A split in which no left value waits.
#[cycle(make)]
pub(crate) fn new_split(
    alloc: Global,
    first: &Query,
    second: &Query,
    cells: Option<&Rc<Cells>>,
) -> Result<Node, AllocError>
    requires first { CanBeNew (option_map rc_value (option_copied cells))
        (plain_of first.now.shape) }
    requires second { CanBeNew (option_map rc_value (option_copied cells))
        (plain_of second.now.shape) }
    ensures { IfOk result (λ node. (expression : Expression) → IsNewNode seen_of
        (option_map rc_value (option_copied cells.entry))
        (split (plain_of first.now.shape) (plain_of second.now.shape) expression)
        (holding_of node.state)) }
{
    let a = boxed_node(alloc, first, cells)?;
    let b = boxed_node(alloc, second, cells)?;
    let held = Pending::new(alloc, places(second))?;
    Ok(Node {
        state: State::Split(a, b, held),
    })
}

/// An iter in which no value so far waits.
#[cycle(make)]
pub(crate) fn new_iter(
    alloc: Global,
    inner: &Query,
    cells: Option<&Rc<Cells>>,
) -> Result<Node, AllocError>
    requires { CanBeNew (option_map rc_value (option_copied cells))
        (plain_of inner.now.shape) }
    ensures { IfOk result (λ node. (number : ℤ) (expression : Expression) → IsNewNode seen_of
        (option_map rc_value (option_copied cells.entry))
        (iter (plain_of inner.now.shape) number expression) (holding_of node.state)) }
{
    let a = boxed_node(alloc, inner, cells)?;
    let so_far = Chain::new(alloc, places(inner))?;
    Ok(Node {
        state: State::Iter(a, so_far),
    })
}

/// A compose all of whose runners are idle.
#[cycle(make)]
pub(crate) fn new_compose(
    alloc: Global,
    first: &Query,
    second: &Query,
    cells: Option<&Rc<Cells>>,
) -> Result<Node, AllocError>
    requires first { CanBeNew (option_map rc_value (option_copied cells))
        (plain_of first.now.shape) }
    requires second { CanBeNew None (plain_of second.now.shape) }
    ensures { IfOk result (λ node. IsNewNode seen_of
        (option_map rc_value (option_copied cells.entry))
        (compose (plain_of first.now.shape) (plain_of second.now.shape)) (holding_of node.state)) }
{
    let a = boxed_node(alloc, first, cells)?;
    let runners = idle_runners(alloc, second, places(first).saturating_add(1))?;
    Ok(Node {
        state: State::Compose(a, runners),
    })
}

/// A collect without a start.
pub(crate) fn new_collect(
    alloc: Global,
    rate: &Rate,
    cells: Option<&Rc<Cells>>,
) -> Result<Node, AllocError>
    requires { CanReadWith (option_map rc_value (option_copied cells)) (rates.plain_of rate.now) }
    ensures { IfOk result (λ node. (chosen : List ℕ) (sync : Predicate) (f : Qre)
        → inner_of (collect chosen sync (rates.plain_of rate.now) f) ≤ max_slots
        → IsNewNode seen_of (option_map rc_value (option_copied cells.entry))
        (collect chosen sync (rates.plain_of rate.now) f) (holding_of node.state)) }
{
    let tracks = no_tracks(alloc, rate, cells)?;
    Ok(Node {
        state: State::Collect(tracks, Joined::new(alloc)),
    })
}
