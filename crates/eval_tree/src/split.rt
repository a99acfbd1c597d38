//! The calls of a split: values of the left operand wait for those of the right one.
ghost use Rattle.std.specs.Prelude.{◌≡◌, None, Option, IfOk, IsOk};
ghost use Rattle.std.specs.Option.{option_or};
ghost use Rattle.split_eval.specs.Entries.{entry_at};
ghost use Rattle.expressions.specs.Expressions as values;
ghost use Rattle.query_model.specs.Queries.{plain_of, split};
ghost use Rattle.eval_nodes.specs.Live.{live_of};
ghost use Rattle.eval_nodes.specs.Plain.{holding_of, seen_of};
ghost use Rattle.step_laws.specs.Calls.{HasStarted, HasStepped, found_in};
ghost use Rattle.step_laws.specs.Lefts.{IsPut};
ghost use Rattle.step_laws.specs.Operands.{CanEnd, CanJoin, EndsNumbers, HasEnded, HasJoined};
ghost use Rattle.step_laws.specs.Operands.{JoinsNumbers, KeepsLive};
ghost use Rattle.step_laws.specs.Steps.{CanStart, CanStep};
ghost use Rattle.step_laws.specs.declared.hit.Hit.{Hit};

use crate::left_values::{wait, wait_if_new};
use crate::operands::{start_and_join, step_and_end};
use crate::steps::{start_into, step_into};
use eval_nodes::{Node, State, is_live};
use expressions::Expr;
use item_schema::Item;
use query_model::Query;
use split_eval::Pending;
use std::alloc::{AllocError, Global};
use step_laws::{Hit, put_if_none};
use value_ops::Value;

#[cycle(step)]
#[tactic(auto, using(step_laws::proofs::Unsound::unlike_split))]
pub(crate) fn start_split(
    first: &Query,
    second: &Query,
    expression: &Expr,
    node: &mut Node,
    alloc: Global,
    at: u64,
    hit: &mut Option<Hit>,
) -> Result<(), AllocError>
    requires none { hit.old ≡ None }
    requires can { CanStart seen_of (split (plain_of first.now.shape) (plain_of second.now.shape)
        (values.plain_of expression.now)) (holding_of node.old.state) at }
    ensures { HasStarted seen_of (split (plain_of first.now.shape) (plain_of second.now.shape)
        (values.plain_of expression.now)) (holding_of node.old.state) at
        (holding_of node.new.state) (found_in result hit.new) }
{
    match &mut node.state {
        State::Split(a, b, held) => {
            let mut left = None;
            start_into(first, a, alloc, at, &mut left)?;
            match left {
                Some(left) => {
                    start_and_join(second, b, expression, &left, alloc, at, hit)?;
                    wait_if_new(held, is_live(second, b, at), at, left);
                    Ok(())
                }
                None => Ok(()),
            }
        }
        _ => unreachable!(),
    }
}

#[cycle(step)]
#[tactic(auto, using(step_laws::proofs::Unsound::unlike_split))]
pub(crate) fn step_split(
    first: &Query,
    second: &Query,
    expression: &Expr,
    node: &mut Node,
    alloc: Global,
    now: u64,
    item: &Item,
    hit: &mut Option<Hit>,
) -> Result<(), AllocError>
    requires none { hit.old ≡ None }
    requires can { CanStep seen_of (split (plain_of first.now.shape) (plain_of second.now.shape)
        (values.plain_of expression.now)) (holding_of node.old.state) now item.now }
    ensures { HasStepped seen_of (split (plain_of first.now.shape) (plain_of second.now.shape)
        (values.plain_of expression.now)) (holding_of node.old.state) now item.now
        (holding_of node.new.state) (found_in result hit.new) }
{
    match &mut node.state {
        State::Split(a, b, held) => {
            end_right(second, b, expression, held, alloc, now, item, hit)?;
            let mut left = None;
            step_into(first, a, alloc, now, item, &mut left)?;
            match left {
                Some(left) => begin_right(second, b, expression, held, alloc, now, left, hit),
                None => Ok(()),
            }
        }
        _ => unreachable!(),
    }
}

/// The right operand ends wholes whose left values wait. Left values at dead starts are dropped.
#[cycle(step)]
#[inline(always)]
fn end_right(
    second: &Query,
    b: &mut Node,
    expression: &Expr,
    held: &mut Pending<Value>,
    alloc: Global,
    now: u64,
    item: &Item,
    hit: &mut Option<Hit>,
) -> Result<(), AllocError>
    requires none { hit.old ≡ None }
    requires can { CanEnd seen_of (plain_of second.now.shape) (values.plain_of expression.now)
        held.old.entries (holding_of b.old.state) now item.now }
    ensures ended { IfOk result (λ done. HasEnded seen_of (plain_of second.now.shape)
        (values.plain_of expression.now) held.old.entries (holding_of b.old.state) now item.now
        (holding_of b.new.state) hit.new) }
    ensures kept { IfOk result (λ done. KeepsLive (live_of (plain_of second.now.shape)
        (holding_of b.new.state)) now held.old held.new) }
    ensures no_memory { EndsNumbers seen_of (plain_of second.now.shape)
        (values.plain_of expression.now) held.old.entries (holding_of b.old.state) now item.now
        → IsOk result }
{
    // The left value of a right one is looked up before those at dead starts are dropped. None
    // waits at the end of the word then, so that one is put there without a look-up.
    step_and_end(second, b, expression, held, alloc, now, item, hit)?;
    let node = &*b;
    held.keep(|start| start != now && is_live(second, node, start));
    Ok(())
}

/// A left value was just found: its right piece begins, and it waits if this start is live. The hit
/// of a whole with an empty right piece is put in if there is no hit yet.
#[cycle(step)]
#[inline(always)]
fn begin_right(
    second: &Query,
    b: &mut Node,
    expression: &Expr,
    held: &mut Pending<Value>,
    alloc: Global,
    at: u64,
    left: Hit,
    hit: &mut Option<Hit>,
) -> Result<(), AllocError>
    requires can { CanJoin seen_of (plain_of second.now.shape) (values.plain_of expression.now)
        left (holding_of b.old.state) at }
    requires fresh { entry_at held.old.entries at ≡ None }
    ensures joined { IfOk result (λ done. (begun : Option Hit) × HasJoined seen_of
        (plain_of second.now.shape) (values.plain_of expression.now) left (holding_of b.old.state)
        at (holding_of b.new.state) begun × (hit.new ≡ option_or hit.old begun)) }
    ensures waits { IfOk result (λ done. IsPut (live_of (plain_of second.now.shape)
        (holding_of b.new.state) at) held.old
        (record { inner = at; outer = left.start; value = left.value }) held.new) }
    ensures no_memory { JoinsNumbers seen_of (plain_of second.now.shape)
        (values.plain_of expression.now) left (holding_of b.old.state) at → IsOk result }
{
    let mut begun = None;
    start_and_join(second, b, expression, &left, alloc, at, &mut begun)?;
    wait(held, is_live(second, b, at), at, left);
    put_if_none(hit, begun);
    Ok(())
}
