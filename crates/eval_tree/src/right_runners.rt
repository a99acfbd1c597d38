//! Runners of the right operand of a compose, which take the values of the left operand as their
//! items.
ghost use Rattle.std.specs.Prelude.{◌≡◌, IfOk, None, IsOk};
ghost use Rattle.query_model.specs.Queries.{plain_of};
ghost use Rattle.eval_nodes.specs.Plain.{seen_of};
ghost use Rattle.step_laws.specs.Feeds.{CanBegin, CanCarry, CanFeed, CanPassOn, Feeds, IsBegun};
ghost use Rattle.step_laws.specs.Feeds.{IsCarried, IsRenewed, IsDelivered, PassesOn, item_of};
ghost use Rattle.step_laws.specs.Numbers.{BeginsNumbers, CarriesNumbers, FeedsNumbers};
ghost use Rattle.step_laws.specs.Numbers.{PassesNumbers};

use crate::steps::{start_into, step_into};
use compose_eval::Instances;
use eval_nodes::Progress;
use item_schema::{Item, Room};
use node_copies::clear;
use query_model::Query;
use std::alloc::{AllocError, Global};
use step_laws::{Hit, put_answer};
use value_ops::{Field, Value};

/// The last idle runner is emptied, takes the value of the hit if there is one, and is fed from the
/// start if this is live. If the starts are apart (`AreApart`), there is an idle one and none is
/// fed from this start.
#[cycle(step)]
pub(crate) fn feed(
    query: &Query,
    runners: &mut Instances<Progress>,
    alloc: Global,
    live: bool,
    at: u64,
    left: Option<Hit>,
    hit: &mut Option<Hit>,
) -> Result<(), AllocError>
    requires none { hit.old ≡ None }
    requires can { CanFeed seen_of (plain_of query.now.shape) runners.old left }
    ensures fed { IfOk result (λ done. Feeds seen_of (plain_of query.now.shape) runners.old live at
        left runners.new hit.new) }
    ensures no_memory { FeedsNumbers seen_of (plain_of query.now.shape) runners.old left
        → IsOk result }
{
    if runners.idle() == 0 || runners.place(at).is_some() {
        return Ok(());
    }
    let last = runners.idle() - 1;
    begin(query, runners.resting_mut(last), alloc, left, hit)?;
    if live {
        runners.wake(at);
    }
    Ok(())
}

/// The runner that is fed from the start of the hit takes its value. Its answer is the hit of the
/// compose.
#[cycle(step)]
pub(crate) fn pass_on(
    query: &Query,
    runners: &mut Instances<Progress>,
    alloc: Global,
    left: Option<Hit>,
    hit: &mut Option<Hit>,
) -> Result<(), AllocError>
    requires none { hit.old ≡ None }
    requires can { CanPassOn seen_of (plain_of query.now.shape) runners.old left }
    ensures passed { IfOk result (λ done. PassesOn seen_of (plain_of query.now.shape) runners.old
        left runners.new hit.new) }
    ensures no_memory { PassesNumbers seen_of (plain_of query.now.shape) runners.old left
        → IsOk result }
{
    match left {
        Some(left) => match runners.place(left.start) {
            Some(place) => deliver(query, runners.follower_mut(place), alloc, left, hit),
            None => Ok(()),
        },
        None => Ok(()),
    }
}

#[cycle(step)]
fn begin(
    query: &Query,
    runner: &mut Progress,
    alloc: Global,
    left: Option<Hit>,
    hit: &mut Option<Hit>,
) -> Result<(), AllocError>
    requires none { hit.old ≡ None }
    requires can { CanBegin seen_of (plain_of query.now.shape) runner.old left }
    ensures begun { IfOk result (λ done. IsBegun seen_of (plain_of query.now.shape) runner.old left
        runner.new hit.new) }
    ensures no_memory { BeginsNumbers seen_of (plain_of query.now.shape) runner.old left
        → IsOk result }
{
    renew(query, runner, alloc)?;
    match left {
        Some(left) => deliver(query, runner, alloc, left, hit),
        None => Ok(()),
    }
}

#[cycle(step)]
fn deliver(
    query: &Query,
    runner: &mut Progress,
    alloc: Global,
    left: Hit,
    hit: &mut Option<Hit>,
) -> Result<(), AllocError>
    requires none { hit.old ≡ None }
    requires can { CanCarry seen_of (plain_of query.now.shape) runner.old (item_of left.value) }
    ensures delivered { IfOk result (λ done.
        IsDelivered seen_of (plain_of query.now.shape) runner.old left
        runner.new hit.new) }
    ensures no_memory { CarriesNumbers seen_of (plain_of query.now.shape) runner.old
        (item_of left.value) → IsOk result }
{
    let (start, value) = left.into_parts();
    carry_value(query, runner, alloc, value)?;
    match &runner.answer {
        Some(value) => {
            let value = value.try_copy(alloc)?;
            *hit = Some(Hit { start, value });
            Ok(())
        }
        None => Ok(()),
    }
}

/// The runner takes the item of a value.
#[cycle(step)]
fn carry_value(
    query: &Query,
    runner: &mut Progress,
    alloc: Global,
    value: Value,
) -> Result<(), AllocError>
    requires { CanCarry seen_of (plain_of query.now.shape) runner.old (item_of value) }
    ensures carried { IfOk result (λ done. IsCarried seen_of (plain_of query.now.shape) runner.old
        (item_of value) runner.new) }
    ensures no_memory { CarriesNumbers seen_of (plain_of query.now.shape) runner.old (item_of value)
        → IsOk result }
{
    match value {
        Value::Rec(_) => carry_parts(query, runner, alloc, value),
        Value::Scalar(_) | Value::Table(_) => {
            carry(query, runner, alloc, &Item::from_field(Field::Val(value)))
        }
    }
}

// Apart, so that the room costs other values nothing.
#[cycle(step)]
#[inline(never)]
fn carry_parts(
    query: &Query,
    runner: &mut Progress,
    alloc: Global,
    value: Value,
) -> Result<(), AllocError>
    requires { CanCarry seen_of (plain_of query.now.shape) runner.old (item_of value) }
    ensures carried { IfOk result (λ done. IsCarried seen_of (plain_of query.now.shape) runner.old
        (item_of value) runner.new) }
    ensures no_memory { CarriesNumbers seen_of (plain_of query.now.shape) runner.old (item_of value)
        → IsOk result }
{
    let mut room = Room::new();
    let item = Item::from_value(value, &mut room);
    carry(query, runner, alloc, &item)
}

/// The runner takes one more item.
#[cycle(step)]
pub fn carry(
    query: &Query,
    runner: &mut Progress,
    alloc: Global,
    item: &Item,
) -> Result<(), AllocError>
    requires { CanCarry seen_of (plain_of query.now.shape) runner.old item.now }
    ensures carried { IfOk result (λ done. IsCarried seen_of (plain_of query.now.shape) runner.old
        item.now runner.new) }
    ensures no_memory { CarriesNumbers seen_of (plain_of query.now.shape) runner.old item.now
        → IsOk result }
{
    let now = runner.position + 1;
    let mut hit = None;
    step_into(query, &mut runner.node, alloc, now, item, &mut hit)?;
    runner.position = now;
    put_answer(&mut runner.answer, hit);
    Ok(())
}

/// Puts the runner back before the first item.
#[cycle(step)]
pub fn renew(query: &Query, runner: &mut Progress, alloc: Global) -> Result<(), AllocError>
    requires { CanBegin seen_of (plain_of query.now.shape) runner.old None }
    ensures renewed { IfOk result (λ done. IsRenewed seen_of (plain_of query.now.shape) runner.old
        runner.new) }
    ensures no_memory { BeginsNumbers seen_of (plain_of query.now.shape) runner.old None
        → IsOk result }
{
    clear(query, &mut runner.node);
    let mut hit = None;
    start_into(query, &mut runner.node, alloc, 0, &mut hit)?;
    runner.position = 0;
    put_answer(&mut runner.answer, hit);
    Ok(())
}
