//! The calls of a combine: those of both operands, whose values are joined.
ghost use Rattle.std.specs.Prelude.{◌≡◌, None};
ghost use Rattle.expressions.specs.Expressions as values;
ghost use Rattle.query_model.specs.Queries.{combine, plain_of};
ghost use Rattle.eval_nodes.specs.Plain.{holding_of, seen_of};
ghost use Rattle.step_laws.specs.Calls.{HasStarted, HasStepped, found_in};
ghost use Rattle.step_laws.specs.Steps.{CanStart, CanStep};

use crate::left_values::combine_with;
use crate::steps::{start_into, step_into};
use eval_nodes::{Node, State};
use expressions::Expr;
use item_schema::Item;
use query_model::Query;
use std::alloc::{AllocError, Global};
use step_laws::Hit;

#[cycle(step)]
#[tactic(auto, using(step_laws::proofs::Unsound::unlike_combine))]
#[inline(always)]
pub(crate) fn start_combine(
    first: &Query,
    second: &Query,
    expression: &Expr,
    node: &mut Node,
    alloc: Global,
    at: u64,
    hit: &mut Option<Hit>,
) -> Result<(), AllocError>
    requires none { hit.old ≡ None }
    requires can { CanStart seen_of (combine (plain_of first.now.shape) (plain_of second.now.shape)
        (values.plain_of expression.now)) (holding_of node.old.state) at }
    ensures { HasStarted seen_of (combine (plain_of first.now.shape) (plain_of second.now.shape)
        (values.plain_of expression.now)) (holding_of node.old.state) at
        (holding_of node.new.state) (found_in result hit.new) }
{
    match &mut node.state {
        State::Combine(a, b) => {
            start_into(first, a, alloc, at, hit)?;
            let mut right = None;
            start_into(second, b, alloc, at, &mut right)?;
            combine_with(alloc, expression, hit, right)
        }
        _ => unreachable!(),
    }
}

#[cycle(step)]
#[tactic(auto, using(step_laws::proofs::Unsound::unlike_combine))]
#[inline(always)]
pub(crate) fn step_combine(
    first: &Query,
    second: &Query,
    expression: &Expr,
    node: &mut Node,
    alloc: Global,
    now: u64,
    item: &Item,
    hit: &mut Option<Hit>,
) -> Result<(), AllocError>
    requires none { hit.old ≡ None }
    requires can { CanStep seen_of (combine (plain_of first.now.shape) (plain_of second.now.shape)
        (values.plain_of expression.now)) (holding_of node.old.state) now item.now }
    ensures { HasStepped seen_of (combine (plain_of first.now.shape) (plain_of second.now.shape)
        (values.plain_of expression.now)) (holding_of node.old.state) now item.now
        (holding_of node.new.state) (found_in result hit.new) }
{
    match &mut node.state {
        State::Combine(a, b) => {
            step_into(first, a, alloc, now, item, hit)?;
            let mut right = None;
            step_into(second, b, alloc, now, item, &mut right)?;
            combine_with(alloc, expression, hit, right)
        }
        _ => unreachable!(),
    }
}
