//! The calls by which a node follows a word. They put a hit into a place that is empty before.
ghost use Rattle.std.specs.Prelude.{◌≡◌, None, Option};
ghost use Rattle.query_model.specs.Queries.{plain_of};
ghost use Rattle.eval_nodes.specs.Plain.{holding_of, seen_of};
ghost use Rattle.step_laws.specs.Calls.{HasStarted, HasStepped, found_in};
ghost use Rattle.step_laws.specs.Steps.{CanStart, CanStep};
ghost use Rattle.step_laws.specs.declared.hit.Hit.{Hit};

use crate::apply::{start_apply, step_apply};
use crate::atom::{start_atom, step_atom};
use crate::choice::{start_choice, step_choice};
use crate::collect::{start_collect, step_collect};
use crate::combine::{start_combine, step_combine};
use crate::compose::{start_compose, step_compose};
use crate::iter::{start_iter, step_iter};
use crate::split::{start_split, step_split};
use eval_nodes::Node;
use item_schema::Item;
use query_model::{Query, Shape};
use std::alloc::{AllocError, Global};
use step_laws::{Hit, put_number};

/// Adds the start at the end of the word, after `at` items.
#[cycle(step)]
#[tactic(auto, using(query_model::specs::declared::query::Shape::TheViews::the_lemmas))]
pub(crate) fn start_into(
    query: &Query,
    node: &mut Node,
    alloc: Global,
    at: u64,
    hit: &mut Option<Hit>,
) -> Result<(), AllocError>
    requires none { hit.old ≡ None }
    requires can { CanStart seen_of (plain_of query.now.shape) (holding_of node.old.state) at }
    ensures { HasStarted seen_of (plain_of query.now.shape) (holding_of node.old.state) at
        (holding_of node.new.state) (found_in result hit.new) }
{
    match &query.shape {
        Shape::Atom(..) => {
            start_atom(node, at);
            Ok(())
        }
        Shape::Eps(number) => {
            put_number(hit, at, *number);
            Ok(())
        }
        Shape::Or(first, second) => start_choice(first, second, node, alloc, at, hit),
        Shape::Apply(inner, expression) => start_apply(inner, expression, node, alloc, at, hit),
        Shape::Split(first, second, expression) => {
            start_split(first, second, expression, node, alloc, at, hit)
        }
        Shape::Combine(first, second, expression) => {
            start_combine(first, second, expression, node, alloc, at, hit)
        }
        Shape::Iter(inner, number, _) => start_iter(inner, *number, node, alloc, at, hit),
        Shape::Compose(first, second) => start_compose(first, second, node, alloc, at, hit),
        Shape::Collect(_, _, _, inner) => start_collect(inner, node, alloc, at, hit),
    }
}

/// Carries all starts over one more item, after which there are `now`.
#[cycle(step)]
#[tactic(auto, using(query_model::specs::declared::query::Shape::TheViews::the_lemmas))]
pub(crate) fn step_into(
    query: &Query,
    node: &mut Node,
    alloc: Global,
    now: u64,
    item: &Item,
    hit: &mut Option<Hit>,
) -> Result<(), AllocError>
    requires none { hit.old ≡ None }
    requires can { CanStep seen_of (plain_of query.now.shape) (holding_of node.old.state) now
        item.now }
    ensures { HasStepped seen_of (plain_of query.now.shape) (holding_of node.old.state) now item.now
        (holding_of node.new.state) (found_in result hit.new) }
{
    match &query.shape {
        Shape::Atom(pred, expression) => step_atom(pred, expression, node, alloc, item, hit),
        Shape::Eps(_) => Ok(()),
        Shape::Or(first, second) => step_choice(first, second, node, alloc, now, item, hit),
        Shape::Apply(inner, expression) => step_apply(
            inner, expression, node, alloc, now, item, hit,
        ),
        Shape::Split(first, second, expression) => {
            step_split(first, second, expression, node, alloc, now, item, hit)
        }
        Shape::Combine(first, second, expression) => {
            step_combine(first, second, expression, node, alloc, now, item, hit)
        }
        Shape::Iter(inner, _, expression) => step_iter(
            inner, expression, node, alloc, now, item, hit,
        ),
        Shape::Compose(first, second) => step_compose(first, second, node, alloc, now, item, hit),
        Shape::Collect(columns, sync, _, inner) => {
            step_collect(inner, columns.as_slice(), sync, node, alloc, item, hit)
        }
    }
}

/// Adds the start where its hit is not needed.
#[cycle(step)]
#[inline(always)]
pub(crate) fn start_only(
    query: &Query,
    node: &mut Node,
    alloc: Global,
    at: u64,
) -> Result<(), AllocError>
    requires { CanStart seen_of (plain_of query.now.shape) (holding_of node.old.state) at }
    ensures { (hit : Option Hit) × HasStarted seen_of (plain_of query.now.shape)
        (holding_of node.old.state) at (holding_of node.new.state) (found_in result hit) }
{
    let mut hit = None;
    start_into(query, node, alloc, at, &mut hit)
}
