//! The calls of a choice: those of both operands, which have no word in common.
ghost use Rattle.std.specs.Prelude.{◌≡◌, None};
ghost use Rattle.query_model.specs.Queries.{choice, plain_of};
ghost use Rattle.eval_nodes.specs.Plain.{holding_of, seen_of};
ghost use Rattle.step_laws.specs.Calls.{HasStarted, HasStepped, found_in};
ghost use Rattle.step_laws.specs.Steps.{CanStart, CanStep};

use crate::steps::{start_into, step_into};
use eval_nodes::{Node, State};
use item_schema::Item;
use query_model::Query;
use std::alloc::{AllocError, Global};
use step_laws::{Hit, put_if_none};

#[cycle(step)]
#[tactic(auto, using(step_laws::proofs::Unsound::unlike_choice))]
#[inline(always)]
pub(crate) fn start_choice(
    first: &Query,
    second: &Query,
    node: &mut Node,
    alloc: Global,
    at: u64,
    hit: &mut Option<Hit>,
) -> Result<(), AllocError>
    requires none { hit.old ≡ None }
    requires can { CanStart seen_of (choice (plain_of first.now.shape) (plain_of second.now.shape))
        (holding_of node.old.state) at }
    ensures { HasStarted seen_of (choice (plain_of first.now.shape) (plain_of second.now.shape))
        (holding_of node.old.state) at (holding_of node.new.state) (found_in result hit.new) }
{
    match &mut node.state {
        State::Or(a, b) => {
            start_into(first, a, alloc, at, hit)?;
            let mut right = None;
            start_into(second, b, alloc, at, &mut right)?;
            put_if_none(hit, right);
            Ok(())
        }
        _ => unreachable!(),
    }
}

#[cycle(step)]
#[tactic(auto, using(step_laws::proofs::Unsound::unlike_choice))]
#[inline(always)]
pub(crate) fn step_choice(
    first: &Query,
    second: &Query,
    node: &mut Node,
    alloc: Global,
    now: u64,
    item: &Item,
    hit: &mut Option<Hit>,
) -> Result<(), AllocError>
    requires none { hit.old ≡ None }
    requires can { CanStep seen_of (choice (plain_of first.now.shape) (plain_of second.now.shape))
        (holding_of node.old.state) now item.now }
    ensures { HasStepped seen_of (choice (plain_of first.now.shape) (plain_of second.now.shape))
        (holding_of node.old.state) now item.now (holding_of node.new.state)
        (found_in result hit.new) }
{
    match &mut node.state {
        State::Or(a, b) => {
            step_into(first, a, alloc, now, item, hit)?;
            let mut right = None;
            step_into(second, b, alloc, now, item, &mut right)?;
            put_if_none(hit, right);
            Ok(())
        }
        _ => unreachable!(),
    }
}
