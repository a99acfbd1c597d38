//! The calls of a compose: the values of its left operand go to the runners of the right one.
ghost use Rattle.std.specs.Prelude.{◌≡◌, ◌++◌, None};
ghost use Rattle.compose_eval.specs.Followers.{live_instances, retired};
ghost use Rattle.query_model.specs.Queries.{compose, plain_of};
ghost use Rattle.eval_nodes.specs.Live.{live_of};
ghost use Rattle.eval_nodes.specs.Plain.{holding_of, seen_of};
ghost use Rattle.step_laws.specs.Calls.{HasStarted, HasStepped, found_in};
ghost use Rattle.step_laws.specs.Steps.{CanStart, CanStep};

use crate::right_runners::{feed, pass_on};
use crate::steps::{start_into, step_into};
use compose_eval::Instances;
use eval_nodes::{Node, Progress, State, is_live};
use item_schema::Item;
use query_model::Query;
use std::alloc::{AllocError, Global};
use step_laws::Hit;

#[cycle(step)]
#[tactic(auto, using(step_laws::proofs::Unsound::unlike_compose))]
#[inline(always)]
pub(crate) fn start_compose(
    first: &Query,
    second: &Query,
    node: &mut Node,
    alloc: Global,
    at: u64,
    hit: &mut Option<Hit>,
) -> Result<(), AllocError>
    requires none { hit.old ≡ None }
    requires can { CanStart seen_of (compose (plain_of first.now.shape) (plain_of second.now.shape))
        (holding_of node.old.state) at }
    ensures { HasStarted seen_of (compose (plain_of first.now.shape) (plain_of second.now.shape))
        (holding_of node.old.state) at (holding_of node.new.state) (found_in result hit.new) }
{
    match &mut node.state {
        State::Compose(a, runners) => {
            let mut left = None;
            start_into(first, a, alloc, at, &mut left)?;
            feed(second, runners, alloc, is_live(first, a, at), at, left, hit)
        }
        _ => unreachable!(),
    }
}

#[cycle(step)]
#[tactic(auto, using(step_laws::proofs::Unsound::unlike_compose))]
pub(crate) fn step_compose(
    first: &Query,
    second: &Query,
    node: &mut Node,
    alloc: Global,
    now: u64,
    item: &Item,
    hit: &mut Option<Hit>,
) -> Result<(), AllocError>
    requires none { hit.old ≡ None }
    requires can { CanStep seen_of (compose (plain_of first.now.shape) (plain_of second.now.shape))
        (holding_of node.old.state) now item.now }
    ensures { HasStepped seen_of (compose (plain_of first.now.shape) (plain_of second.now.shape))
        (holding_of node.old.state) now item.now (holding_of node.new.state)
        (found_in result hit.new) }
{
    match &mut node.state {
        State::Compose(a, runners) => {
            let mut left = None;
            step_into(first, a, alloc, now, item, &mut left)?;
            // A runner that has just taken a value may become idle, so its answer is taken out
            // before.
            pass_on(second, runners, alloc, left, hit)?;
            retire(first, a, runners);
            Ok(())
        }
        _ => unreachable!(),
    }
}

/// Runners that are fed from dead starts become idle.
#[inline(always)]
fn retire(first: &Query, node: &Node, runners: &mut Instances<Progress>)
    ensures live { runners.new.live ≡ live_instances
        (live_of (plain_of first.now.shape) (holding_of node.now.state)) runners.old.live }
    ensures idle { runners.new.idle ≡ runners.old.idle ++ retired
        (live_of (plain_of first.now.shape) (holding_of node.now.state)) runners.old.live }
{
    runners.keep(|start| is_live(first, node, start));
}
