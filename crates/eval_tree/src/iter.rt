//! The calls of an iteration: values so far wait for a further piece.
ghost use Rattle.std.specs.Prelude.{◌≡◌, ℤ, None, IfOk, IsOk};
ghost use Rattle.split_eval.specs.Entries.{entry_at};
ghost use Rattle.expressions.specs.Expressions as values;
ghost use Rattle.value_ops.specs.Values.{IsNoTable};
ghost use Rattle.query_model.specs.Queries.{iter, plain_of};
ghost use Rattle.eval_nodes.specs.Plain.{holding_of, seen_of};
ghost use Rattle.step_laws.specs.Calls.{HasStarted, HasStepped, found_in};
ghost use Rattle.step_laws.specs.Numbers.{StartsNumbers};
ghost use Rattle.step_laws.specs.Operands.{Continues};
ghost use Rattle.step_laws.specs.Steps.{CanStart, CanStep};

use crate::operands::step_and_end;
use crate::steps::start_only;
use crate::values_so_far::{continue_from, continue_if_new};
use eval_nodes::{Node, State, is_live};
use expressions::Expr;
use item_schema::Item;
use iter_eval::Chain;
use query_model::Query;
use std::alloc::{AllocError, Global};
use step_laws::Hit;
use value_ops::Value;

#[cycle(step)]
#[tactic(auto, using(step_laws::proofs::Unsound::unlike_iter))]
#[inline(always)]
pub(crate) fn start_iter(
    inner: &Query,
    number: i64,
    node: &mut Node,
    alloc: Global,
    at: u64,
    hit: &mut Option<Hit>,
) -> Result<(), AllocError>
    requires none { hit.old ≡ None }
    requires can { (fold : values.Expression) × CanStart seen_of
        (iter (plain_of inner.now.shape) number fold) (holding_of node.old.state) at }
    ensures { (fold : values.Expression) → HasStarted seen_of
        (iter (plain_of inner.now.shape) number fold) (holding_of node.old.state) at
        (holding_of node.new.state) (found_in result hit.new) }
{
    match &mut node.state {
        State::Iter(a, so_far) => {
            // No piece of an iteration is empty, so the operand has no hit here.
            start_only(inner, a, alloc, at)?;
            let begun = Hit::of_number(at, number);
            continue_if_new(alloc, so_far, is_live(inner, a, at), at, &begun)?;
            *hit = Some(begun);
            Ok(())
        }
        _ => unreachable!(),
    }
}

#[cycle(step)]
#[tactic(auto, using(step_laws::proofs::Unsound::unlike_iter))]
#[inline(always)]
pub(crate) fn step_iter(
    inner: &Query,
    expression: &Expr,
    node: &mut Node,
    alloc: Global,
    now: u64,
    item: &Item,
    hit: &mut Option<Hit>,
) -> Result<(), AllocError>
    requires none { hit.old ≡ None }
    requires can { (number : ℤ) × CanStep seen_of
        (iter (plain_of inner.now.shape) number (values.plain_of expression.now))
        (holding_of node.old.state) now item.now }
    ensures { (number : ℤ) → HasStepped seen_of
        (iter (plain_of inner.now.shape) number (values.plain_of expression.now))
        (holding_of node.old.state) now item.now (holding_of node.new.state)
        (found_in result hit.new) }
{
    match &mut node.state {
        State::Iter(a, so_far) => {
            // The value before the piece is looked up before values at dead starts are dropped.
            let held = so_far.as_pending();
            step_and_end(inner, a, expression, held, alloc, now, item, hit)?;
            let node = &**a;
            so_far.keep(|start| start != now && is_live(inner, node, start));
            match &*hit {
                Some(found) => next_piece(inner, a, so_far, alloc, now, found),
                None => Ok(()),
            }
        }
        _ => unreachable!(),
    }
}

/// A further piece begins after the value so far, which waits for it if this start is live.
#[cycle(step)]
#[inline(always)]
fn next_piece(
    inner: &Query,
    a: &mut Node,
    so_far: &mut Chain<Value>,
    alloc: Global,
    at: u64,
    hit: &Hit,
) -> Result<(), AllocError>
    requires can { CanStart seen_of (plain_of inner.now.shape) (holding_of a.old.state) at }
    requires fresh { entry_at so_far.old.entries at ≡ None }
    ensures continues { IfOk result (λ done. Continues seen_of (plain_of inner.now.shape) hit.now
        (holding_of a.old.state) so_far.old at (holding_of a.new.state) so_far.new) }
    ensures no_memory { StartsNumbers seen_of (plain_of inner.now.shape) (holding_of a.old.state) at
        → IsNoTable hit.now.value → IsOk result }
{
    start_only(inner, a, alloc, at)?;
    continue_from(alloc, so_far, is_live(inner, a, at), at, hit)
}
