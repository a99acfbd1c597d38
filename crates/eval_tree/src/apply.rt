//! The calls of an apply: those of the operand, with the expression computed of its value.
ghost use Rattle.std.specs.Prelude.{◌≡◌, None};
ghost use Rattle.expressions.specs.Expressions as values;
ghost use Rattle.query_model.specs.Queries.{apply, plain_of};
ghost use Rattle.eval_nodes.specs.Plain.{holding_of, seen_of};
ghost use Rattle.step_laws.specs.Calls.{HasStarted, HasStepped, found_in};
ghost use Rattle.step_laws.specs.Steps.{CanStart, CanStep};

use crate::left_values::apply_to;
use crate::steps::{start_into, step_into};
use eval_nodes::{Node, State};
use expressions::Expr;
use item_schema::Item;
use query_model::Query;
use std::alloc::{AllocError, Global};
use step_laws::Hit;

#[cycle(step)]
#[tactic(auto, using(step_laws::proofs::Unsound::unlike_apply))]
#[inline(always)]
pub(crate) fn start_apply(
    inner: &Query,
    expression: &Expr,
    node: &mut Node,
    alloc: Global,
    at: u64,
    hit: &mut Option<Hit>,
) -> Result<(), AllocError>
    requires none { hit.old ≡ None }
    requires can { CanStart seen_of
        (apply (plain_of inner.now.shape) (values.plain_of expression.now))
        (holding_of node.old.state) at }
    ensures { HasStarted seen_of (apply (plain_of inner.now.shape) (values.plain_of expression.now))
        (holding_of node.old.state) at (holding_of node.new.state) (found_in result hit.new) }
{
    match &mut node.state {
        State::Apply(a) => {
            start_into(inner, a, alloc, at, hit)?;
            apply_to(alloc, expression, hit)
        }
        _ => unreachable!(),
    }
}

#[cycle(step)]
#[tactic(auto, using(step_laws::proofs::Unsound::unlike_apply))]
#[inline(always)]
pub(crate) fn step_apply(
    inner: &Query,
    expression: &Expr,
    node: &mut Node,
    alloc: Global,
    now: u64,
    item: &Item,
    hit: &mut Option<Hit>,
) -> Result<(), AllocError>
    requires none { hit.old ≡ None }
    requires can { CanStep seen_of
        (apply (plain_of inner.now.shape) (values.plain_of expression.now))
        (holding_of node.old.state) now item.now }
    ensures { HasStepped seen_of (apply (plain_of inner.now.shape) (values.plain_of expression.now))
        (holding_of node.old.state) now item.now (holding_of node.new.state)
        (found_in result hit.new) }
{
    match &mut node.state {
        State::Apply(a) => {
            step_into(inner, a, alloc, now, item, hit)?;
            apply_to(alloc, expression, hit)
        }
        _ => unreachable!(),
    }
}
