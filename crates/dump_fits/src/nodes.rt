//! Whether nodes fit, by the shape of the query.
ghost use Rattle.std.specs.Prelude.{◌≤◌, ◌↔◌, ℕ, ℤ, IsTrue, List};
ghost use Rattle.item_schema.specs.declared.column.Column.{Column};
ghost use Rattle.predicates.specs.Predicates.{Predicate};
ghost use Rattle.expressions.specs.Expressions.{Expression};
ghost use Rattle.rate_expr.specs.Plain as rates;
ghost use Rattle.rate_expr.specs.Rates.{size_of};
ghost use Rattle.query_model.specs.Bounds.{inner_of};
ghost use Rattle.query_model.specs.Queries.{apply, atom, choice, collect, combine, compose, eps};
ghost use Rattle.query_model.specs.Queries.{iter, plain_of, split};
ghost use Rattle.query_model.specs.Sizes.{max_slots};
ghost use Rattle.runner_snapshot.specs.Plain.{plain_node};
ghost use Rattle.eval_snapshot.specs.Fits.{FitsNode};
ghost use Rattle.dump_fits.specs.Streams.{columns_of};
ghost use Rattle.dump_fits.specs.Telling.{Tells};

use crate::entries::fit_waiting;
use crate::instances::fit_instances;
use crate::stream::Stream;
use crate::tracks::fit_tracks;
use crate::value_types::value_type;
use memory_bound::places;
use query_model::{Query, Shape};
use rate_expr::Rate;
use runner_snapshot::NodeDump;
use std::alloc::{AllocError, Global};
use value_ops::ValueType;

/// The node has the query's shape, and its lists fit.
#[cycle(fit)]
pub(crate) fn fits_node(
    alloc: Global,
    query: &Query,
    stream: &Stream,
    position: u64,
    node: &NodeDump,
) -> Result<bool, AllocError>
    requires { inner_of (plain_of query.now.shape) ≤ max_slots }
    ensures { Tells result (FitsNode (columns_of stream.now) (plain_of query.now.shape) position
        (plain_node node.now)) }
{
    match &query.shape {
        Shape::Atom(..) => Ok(fits_atom(position, node)),
        Shape::Eps(_) => Ok(fits_eps(node)),
        Shape::Or(left, right) => fits_choice(alloc, left, right, stream, position, node),
        Shape::Apply(inner, _) => fits_apply(alloc, inner, stream, position, node),
        Shape::Split(left, right, _) => fits_split(alloc, left, right, stream, position, node),
        Shape::Combine(left, right, _) => fits_combine(alloc, left, right, stream, position, node),
        Shape::Iter(inner, ..) => fits_iter(alloc, inner, stream, position, node),
        Shape::Compose(left, right) => fits_compose(alloc, left, right, stream, position, node),
        Shape::Collect(_, _, rate, inner) => {
            fits_collect(alloc, rate, inner, stream, position, node)
        }
    }
}

fn fits_atom(position: u64, node: &NodeDump) -> bool
    ensures { (columns : List Column) (pred : Predicate) (expression : Expression)
        → IsTrue result ↔ FitsNode columns (atom pred expression) position
        (plain_node node.now) }
{
    match node {
        NodeDump::Atom(starts) => match starts.len() {
            0 => true,
            1 => starts.get(0) <= position,
            _ => false,
        },
        _ => false,
    }
}

fn fits_eps(node: &NodeDump) -> bool
    ensures { (columns : List Column) (number : ℤ) (position : ℕ)
        → IsTrue result ↔ FitsNode columns (eps number) position (plain_node node.now) }
{
    match node {
        NodeDump::Eps => true,
        _ => false,
    }
}

#[cycle(fit)]
fn fits_choice(
    alloc: Global,
    left: &Query,
    right: &Query,
    stream: &Stream,
    position: u64,
    node: &NodeDump,
) -> Result<bool, AllocError>
    requires first { inner_of (plain_of left.now.shape) ≤ max_slots }
    requires second { inner_of (plain_of right.now.shape) ≤ max_slots }
    ensures { Tells result (FitsNode (columns_of stream.now)
        (choice (plain_of left.now.shape) (plain_of right.now.shape)) position
        (plain_node node.now)) }
{
    match node {
        NodeDump::Or(a, b) => Ok(
            fits_node(alloc, left, stream, position, a)?
                && fits_node(alloc, right, stream, position, b)?,
        ),
        _ => Ok(false),
    }
}

#[cycle(fit)]
fn fits_combine(
    alloc: Global,
    left: &Query,
    right: &Query,
    stream: &Stream,
    position: u64,
    node: &NodeDump,
) -> Result<bool, AllocError>
    requires first { inner_of (plain_of left.now.shape) ≤ max_slots }
    requires second { inner_of (plain_of right.now.shape) ≤ max_slots }
    ensures { (expression : Expression) → Tells result (FitsNode (columns_of stream.now)
        (combine (plain_of left.now.shape) (plain_of right.now.shape) expression) position
        (plain_node node.now)) }
{
    match node {
        NodeDump::Combine(a, b) => Ok(
            fits_node(alloc, left, stream, position, a)?
                && fits_node(alloc, right, stream, position, b)?,
        ),
        _ => Ok(false),
    }
}

#[cycle(fit)]
fn fits_apply(
    alloc: Global,
    inner: &Query,
    stream: &Stream,
    position: u64,
    node: &NodeDump,
) -> Result<bool, AllocError>
    requires { inner_of (plain_of inner.now.shape) ≤ max_slots }
    ensures { (expression : Expression) → Tells result (FitsNode (columns_of stream.now)
        (apply (plain_of inner.now.shape) expression) position (plain_node node.now)) }
{
    match node {
        NodeDump::Apply(a) => fits_node(alloc, inner, stream, position, a),
        _ => Ok(false),
    }
}

#[cycle(fit)]
fn fits_split(
    alloc: Global,
    left: &Query,
    right: &Query,
    stream: &Stream,
    position: u64,
    node: &NodeDump,
) -> Result<bool, AllocError>
    requires first { inner_of (plain_of left.now.shape) ≤ max_slots }
    requires second { inner_of (plain_of right.now.shape) ≤ max_slots }
    ensures { (expression : Expression) → Tells result (FitsNode (columns_of stream.now)
        (split (plain_of left.now.shape) (plain_of right.now.shape) expression) position
        (plain_node node.now)) }
{
    match node {
        NodeDump::Split(a, b, entries) => Ok(
            fits_node(alloc, left, stream, position, a)?
                && fits_node(alloc, right, stream, position, b)?
                && fit_waiting(
                    alloc,
                    value_type(left, stream),
                    places(right),
                    position,
                    entries,
                )?,
        ),
        _ => Ok(false),
    }
}

#[cycle(fit)]
fn fits_iter(
    alloc: Global,
    inner: &Query,
    stream: &Stream,
    position: u64,
    node: &NodeDump,
) -> Result<bool, AllocError>
    requires { inner_of (plain_of inner.now.shape) ≤ max_slots }
    ensures { (number : ℤ) (expression : Expression) → Tells result
        (FitsNode (columns_of stream.now) (iter (plain_of inner.now.shape) number expression)
        position (plain_node node.now)) }
{
    match node {
        NodeDump::Iter(a, entries) => Ok(
            fits_node(alloc, inner, stream, position, a)?
                && fit_waiting(alloc, ValueType::Number, places(inner), position, entries)?,
        ),
        _ => Ok(false),
    }
}

#[cycle(fit)]
fn fits_compose(
    alloc: Global,
    left: &Query,
    right: &Query,
    stream: &Stream,
    position: u64,
    node: &NodeDump,
) -> Result<bool, AllocError>
    requires first { inner_of (plain_of left.now.shape) ≤ max_slots }
    requires second { inner_of (plain_of right.now.shape) ≤ max_slots }
    ensures { Tells result (FitsNode (columns_of stream.now)
        (compose (plain_of left.now.shape) (plain_of right.now.shape)) position
        (plain_node node.now)) }
{
    match node {
        NodeDump::Compose(a, runners) => {
            let values = Stream::Values(value_type(left, stream));
            Ok(
                runners.len() <= places(left) as usize + 1
                    && fits_node(alloc, left, stream, position, a)?
                    && fit_instances(alloc, right, &values, position, runners)?,
            )
        }
        _ => Ok(false),
    }
}

#[cycle(fit)]
fn fits_collect(
    alloc: Global,
    rate: &Rate,
    inner: &Query,
    stream: &Stream,
    position: u64,
    node: &NodeDump,
) -> Result<bool, AllocError>
    requires rate { size_of (rates.plain_of rate.now) ≤ max_slots }
    requires inner { inner_of (plain_of inner.now.shape) ≤ max_slots }
    ensures { (chosen : List ℕ) (sync : Predicate) → Tells result
        (FitsNode (columns_of stream.now)
        (collect chosen sync (rates.plain_of rate.now) (plain_of inner.now.shape)) position
        (plain_node node.now)) }
{
    match node {
        NodeDump::Collect(tracks) => Ok(
            tracks.len() <= rate.positions() as usize + 1
                && fit_tracks(alloc, rate, inner, stream, position, tracks)?,
        ),
        _ => Ok(false),
    }
}
