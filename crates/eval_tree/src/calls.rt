//! The calls by which a node follows a word.
ghost use Rattle.query_model.specs.Queries.{plain_of};
ghost use Rattle.eval_nodes.specs.Plain.{holding_of, seen_of};
ghost use Rattle.step_laws.specs.Calls.{HasStarted, HasStepped};
ghost use Rattle.step_laws.specs.Steps.{CanStart, CanStep};

use crate::steps::{start_into, step_into};
use eval_nodes::Node;
use item_schema::Item;
use query_model::Query;
use std::alloc::{AllocError, Global};
use step_laws::Hit;

/// Adds the start at the end of the word, after `at` items.
pub fn start(
    query: &Query,
    node: &mut Node,
    alloc: Global,
    at: u64,
) -> Result<Option<Hit>, AllocError>
    requires { CanStart seen_of (plain_of query.now.shape) (holding_of node.old.state) at }
    ensures { HasStarted seen_of (plain_of query.now.shape) (holding_of node.old.state) at
        (holding_of node.new.state) result }
{
    let mut hit = None;
    start_into(query, node, alloc, at, &mut hit)?;
    Ok(hit)
}

/// Carries all starts over one more item, after which there are `now`.
pub fn step(
    query: &Query,
    node: &mut Node,
    alloc: Global,
    now: u64,
    item: &Item,
) -> Result<Option<Hit>, AllocError>
    requires { CanStep seen_of (plain_of query.now.shape) (holding_of node.old.state) now item.now }
    ensures { HasStepped seen_of (plain_of query.now.shape) (holding_of node.old.state) now item.now
        (holding_of node.new.state) result }
{
    let mut hit = None;
    step_into(query, node, alloc, now, item, &mut hit)?;
    Ok(hit)
}
