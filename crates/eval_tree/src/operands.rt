//! The calls of an operand whose value is joined with a left value.
ghost use Rattle.std.specs.Prelude.{◌≡◌, None, IfOk, IsOk};
ghost use Rattle.expressions.specs.Expressions as values;
ghost use Rattle.query_model.specs.Queries.{plain_of};
ghost use Rattle.eval_nodes.specs.Plain.{holding_of, seen_of};
ghost use Rattle.step_laws.specs.Operands.{CanEnd, CanJoin, EndsNumbers, HasEnded, HasJoined};
ghost use Rattle.step_laws.specs.Operands.{JoinsNumbers};

use crate::left_values::{end_waiting, join_to};
use crate::steps::{start_into, step_into};
use eval_nodes::Node;
use expressions::Expr;
use item_schema::Item;
use query_model::Query;
use split_eval::Pending;
use std::alloc::{AllocError, Global};
use step_laws::Hit;
use value_ops::Value;

/// Steps an operand whose value ends a whole, the left value of which has waited.
#[cycle(step)]
#[inline(always)]
pub(crate) fn step_and_end(
    operand: &Query,
    node: &mut Node,
    expression: &Expr,
    held: &Pending<Value>,
    alloc: Global,
    now: u64,
    item: &Item,
    hit: &mut Option<Hit>,
) -> Result<(), AllocError>
    requires none { hit.old ≡ None }
    requires can { CanEnd seen_of (plain_of operand.now.shape) (values.plain_of expression.now)
        held.now.entries (holding_of node.old.state) now item.now }
    ensures ended { IfOk result (λ done. HasEnded seen_of (plain_of operand.now.shape)
        (values.plain_of expression.now) held.now.entries (holding_of node.old.state) now item.now
        (holding_of node.new.state) hit.new) }
    ensures no_memory { EndsNumbers seen_of (plain_of operand.now.shape)
        (values.plain_of expression.now) held.now.entries (holding_of node.old.state) now item.now
        → IsOk result }
{
    step_into(operand, node, alloc, now, item, hit)?;
    end_waiting(alloc, expression, held, hit)
}

/// Starts an operand. Its value on the empty word, if it has one, is joined with a left value that
/// was just found.
#[cycle(step)]
#[inline(always)]
pub(crate) fn start_and_join(
    operand: &Query,
    node: &mut Node,
    expression: &Expr,
    left: &Hit,
    alloc: Global,
    at: u64,
    hit: &mut Option<Hit>,
) -> Result<(), AllocError>
    requires none { hit.old ≡ None }
    requires can { CanJoin seen_of (plain_of operand.now.shape) (values.plain_of expression.now)
        left.now (holding_of node.old.state) at }
    ensures joined { IfOk result (λ done. HasJoined seen_of (plain_of operand.now.shape)
        (values.plain_of expression.now) left.now (holding_of node.old.state) at
        (holding_of node.new.state) hit.new) }
    ensures no_memory { JoinsNumbers seen_of (plain_of operand.now.shape)
        (values.plain_of expression.now) left.now (holding_of node.old.state) at → IsOk result }
{
    start_into(operand, node, alloc, at, hit)?;
    join_to(alloc, expression, left, hit)
}
