//! A dump of a node of each shape, made of dumps of its operands. Of a node that is not of the
//! query's shape nothing is kept.
ghost use Rattle.std.specs.Prelude.{◌≡◌, ℕ, ℤ, IfOk, List};
ghost use Rattle.predicates.specs.Predicates.{Predicate};
ghost use Rattle.rate_expr.specs.Rates as rates;
ghost use Rattle.expressions.specs.Expressions.{Expression};
ghost use Rattle.query_model.specs.Queries.{apply, atom, choice, collect, combine, compose, iter};
ghost use Rattle.query_model.specs.Queries.{plain_of, split};
ghost use Rattle.eval_nodes.specs.Plain.{holding_of, seen_of};
ghost use Rattle.runner_snapshot.specs.Plain.{plain_node};
ghost use Rattle.eval_snapshot.specs.Dumped.{dumped_node};

use crate::dumps::boxed_dump;
use crate::lists::{dumped_entries, dumped_runners, dumped_start, dumped_tracks};
use eval_nodes::{Node, State};
use query_model::Query;
use runner_snapshot::NodeDump;
use std::alloc::{AllocError, Global};

pub(crate) fn dump_of_atom(node: &Node, alloc: Global) -> Result<NodeDump, AllocError>
    ensures { IfOk result (λ dump. (pred : Predicate) (expression : Expression) → plain_node dump
        ≡ dumped_node seen_of (atom pred expression) (holding_of node.now.state)) }
{
    match &node.state {
        State::Atom(found) => Ok(NodeDump::Atom(dumped_start(*found, alloc)?)),
        _ => Ok(NodeDump::Eps),
    }
}

#[cycle(dump)]
pub(crate) fn dump_of_choice(
    left: &Query,
    right: &Query,
    node: &Node,
    alloc: Global,
) -> Result<NodeDump, AllocError>
    ensures { IfOk result (λ dump. plain_node dump ≡ dumped_node seen_of
        (choice (plain_of left.now.shape) (plain_of right.now.shape))
        (holding_of node.now.state)) }
{
    match &node.state {
        State::Or(a, b) => {
            let a = boxed_dump(left, a, alloc)?;
            let b = boxed_dump(right, b, alloc)?;
            Ok(NodeDump::Or(a, b))
        }
        _ => Ok(NodeDump::Eps),
    }
}

#[cycle(dump)]
pub(crate) fn dump_of_combine(
    left: &Query,
    right: &Query,
    node: &Node,
    alloc: Global,
) -> Result<NodeDump, AllocError>
    ensures { IfOk result (λ dump. (expression : Expression) → plain_node dump
        ≡ dumped_node seen_of
        (combine (plain_of left.now.shape) (plain_of right.now.shape) expression)
        (holding_of node.now.state)) }
{
    match &node.state {
        State::Combine(a, b) => {
            let a = boxed_dump(left, a, alloc)?;
            let b = boxed_dump(right, b, alloc)?;
            Ok(NodeDump::Combine(a, b))
        }
        _ => Ok(NodeDump::Eps),
    }
}

#[cycle(dump)]
pub(crate) fn dump_of_apply(
    inner: &Query,
    node: &Node,
    alloc: Global,
) -> Result<NodeDump, AllocError>
    ensures { IfOk result (λ dump. (expression : Expression) → plain_node dump
        ≡ dumped_node seen_of (apply (plain_of inner.now.shape) expression)
        (holding_of node.now.state)) }
{
    match &node.state {
        State::Apply(a) => {
            let a = boxed_dump(inner, a, alloc)?;
            Ok(NodeDump::Apply(a))
        }
        _ => Ok(NodeDump::Eps),
    }
}

#[cycle(dump)]
pub(crate) fn dump_of_split(
    left: &Query,
    right: &Query,
    node: &Node,
    alloc: Global,
) -> Result<NodeDump, AllocError>
    ensures { IfOk result (λ dump. (expression : Expression) → plain_node dump
        ≡ dumped_node seen_of
        (split (plain_of left.now.shape) (plain_of right.now.shape) expression)
        (holding_of node.now.state)) }
{
    match &node.state {
        State::Split(a, b, held) => {
            let a = boxed_dump(left, a, alloc)?;
            let b = boxed_dump(right, b, alloc)?;
            let held = dumped_entries(held, alloc)?;
            Ok(NodeDump::Split(a, b, held))
        }
        _ => Ok(NodeDump::Eps),
    }
}

#[cycle(dump)]
pub(crate) fn dump_of_iter(
    inner: &Query,
    node: &Node,
    alloc: Global,
) -> Result<NodeDump, AllocError>
    ensures { IfOk result (λ dump. (number : ℤ) (expression : Expression) → plain_node dump
        ≡ dumped_node seen_of (iter (plain_of inner.now.shape) number expression)
        (holding_of node.now.state)) }
{
    match &node.state {
        State::Iter(a, so_far) => {
            let a = boxed_dump(inner, a, alloc)?;
            let so_far = dumped_entries(so_far.as_pending(), alloc)?;
            Ok(NodeDump::Iter(a, so_far))
        }
        _ => Ok(NodeDump::Eps),
    }
}

#[cycle(dump)]
pub(crate) fn dump_of_compose(
    left: &Query,
    right: &Query,
    node: &Node,
    alloc: Global,
) -> Result<NodeDump, AllocError>
    ensures { IfOk result (λ dump. plain_node dump ≡ dumped_node seen_of
        (compose (plain_of left.now.shape) (plain_of right.now.shape))
        (holding_of node.now.state)) }
{
    match &node.state {
        State::Compose(a, instances) => {
            let a = boxed_dump(left, a, alloc)?;
            let runners = dumped_runners(right, instances, alloc)?;
            Ok(NodeDump::Compose(a, runners))
        }
        _ => Ok(NodeDump::Eps),
    }
}

#[cycle(dump)]
pub(crate) fn dump_of_collect(
    inner: &Query,
    node: &Node,
    alloc: Global,
) -> Result<NodeDump, AllocError>
    ensures { IfOk result (λ dump. (chosen : List ℕ) (sync : Predicate) (rate : rates.Regex)
        → plain_node dump
        ≡ dumped_node seen_of (collect chosen sync rate (plain_of inner.now.shape))
        (holding_of node.now.state)) }
{
    match &node.state {
        State::Collect(tracks, _) => {
            let tracks = dumped_tracks(inner, tracks, alloc)?;
            Ok(NodeDump::Collect(tracks))
        }
        _ => Ok(NodeDump::Eps),
    }
}
