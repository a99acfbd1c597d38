//! A node for each part of a query.
ghost use Rattle.std.specs.Prelude.{◌≡◌, ◌≤◌, ◌-◌, ◌^◌, [], List, None, length, IfOk};
ghost use Rattle.std.specs.List.{AllByRecursion};
ghost use Rattle.std.specs.Option.{option_copied, option_map};
ghost use Rattle.std.specs.Rc.{rc_value};
ghost use Rattle.item_schema.specs.declared.column.Column.{Column};
ghost use Rattle.query_model.specs.Bounds.{inner_of, slots_of};
ghost use Rattle.query_model.specs.Queries.{plain_of};
ghost use Rattle.query_model.specs.Sizes.{max_slots};
ghost use Rattle.eval_nodes.specs.Counts.{stored_in};
ghost use Rattle.eval_nodes.specs.Runners.{IsSoundOf};
ghost use Rattle.eval_nodes.specs.NewNodes.{CanBeNew, IsNewNode};
ghost use Rattle.eval_nodes.specs.Plain.{holding_of, seen_of};
ghost use Rattle.eval_nodes.specs.Represents.{KeepsFew, Represents};
ghost use Rattle.eval_nodes.specs.Sound.{IsSound};
ghost use Rattle.eval_nodes.specs.Streams.{AreColumnsOf, CanBeMade};

use crate::new_nodes::{
    new_apply, new_choice, new_collect, new_combine, new_compose, new_iter, new_split,
};
use compose_eval::Instances;
use eval_nodes::{Node, Progress, State};
use predicate_cells::Cells;
use query_model::{Query, Shape};
use std::alloc::{AllocError, Global};
use std::rc::Rc;

/// A node that stands for the empty word, without a start.
#[cycle(make)]
pub fn new_node(alloc: Global, query: &Query, cells: Option<&Rc<Cells>>) -> Result<Node, AllocError>
    requires cells { CanBeMade (option_map rc_value (option_copied cells))
        (plain_of query.now.shape) }
    requires small { inner_of (plain_of query.now.shape) ≤ max_slots }
    ensures word { IfOk result (λ node. (columns : List Column)
        → AreColumnsOf (option_map rc_value (option_copied cells.entry)) columns
        → Represents seen_of columns (plain_of query.now.shape) (holding_of node.state) [] []) }
    ensures sound { IfOk result (λ node. (columns : List Column)
        → AreColumnsOf (option_map rc_value (option_copied cells.entry)) columns
        → IsSound seen_of columns (plain_of query.now.shape) 0 (holding_of node.state)) }
{
    match &query.shape {
        Shape::Atom(..) => Ok(Node {
            state: State::Atom(None),
        }),
        Shape::Eps(_) => Ok(Node { state: State::Eps }),
        Shape::Or(left, right) => new_choice(alloc, left, right, cells),
        Shape::Apply(inner, _) => new_apply(alloc, inner, cells),
        Shape::Split(left, right, _) => new_split(alloc, left, right, cells),
        Shape::Combine(left, right, _) => new_combine(alloc, left, right, cells),
        Shape::Iter(inner, ..) => new_iter(alloc, inner, cells),
        Shape::Compose(left, right) => new_compose(alloc, left, right, cells),
        Shape::Collect(_, _, rate, _) => new_collect(alloc, rate, cells),
    }
}

#[cycle(make)]
pub(crate) fn boxed_node(
    alloc: Global,
    query: &Query,
    cells: Option<&Rc<Cells>>,
) -> Result<Box<Node>, AllocError>
    requires { CanBeNew (option_map rc_value (option_copied cells))
        (plain_of query.now.shape) }
    ensures { IfOk result (λ node. IsNewNode seen_of
        (option_map rc_value (option_copied cells.entry)) (plain_of query.now.shape)
        (holding_of node.value.state)) }
{
    Ok(Box::new(alloc, new_node(alloc, query, cells)?)?)
}

/// As many runners as the count says, all of them idle.
#[cycle(make)]
pub(crate) fn idle_runners(
    alloc: Global,
    query: &Query,
    count: u32,
) -> Result<Instances<Progress>, AllocError>
    requires cells { CanBeMade None (plain_of query.now.shape) }
    requires small { inner_of (plain_of query.now.shape) ≤ max_slots }
    ensures live { IfOk result (λ runners. runners.live ≡ []) }
    ensures count { IfOk result (λ runners. length runners.idle ≡ count) }
    ensures sound { IfOk result (λ runners. (columns : List Column)
        → AllByRecursion (IsSoundOf seen_of columns (plain_of query.now.shape)) runners.idle) }
    ensures few { IfOk result (λ runners. AllByRecursion (KeepsFew seen_of
        (stored_in seen_of (plain_of query.now.shape)) (slots_of (plain_of query.now.shape)))
        runners.idle) }
{
    let mut runners = Instances::new(alloc, count)?;
    'idle: for _ in 0..count {
        let node = new_node(alloc, query, None)?;
        runners.rest(Progress {
            node,
            position: 0,
            answer: None,
        });
    }
    Ok(runners)
}
