//! Nodes and runners are put back.
ghost use Rattle.std.specs.Prelude.{◌≤◌, IfOk};
ghost use Rattle.std.specs.Option.{option_copied, option_map};
ghost use Rattle.std.specs.Rc.{rc_value};
ghost use Rattle.query_model.specs.Bounds.{inner_of};
ghost use Rattle.query_model.specs.Queries.{plain_of};
ghost use Rattle.query_model.specs.Sizes.{max_slots};
ghost use Rattle.eval_nodes.specs.Plain.{holding_of, seen_of};
ghost use Rattle.runner_snapshot.specs.Plain.{plain_node, plain_runner};
ghost use Rattle.restored_nodes.specs.Cells.{AreCellsFor, CanBePutBack};
ghost use Rattle.restored_nodes.specs.Restored.{IsRestored, IsRestoredRunner};
ghost use Rattle.restored_nodes.specs.Rooms.{HasRoom};

use crate::operands::{
    restored_apply, restored_atom, restored_choice, restored_collect, restored_combine,
    restored_compose, restored_iter, restored_split,
};
use eval_nodes::{Node, Progress, State};
use predicate_cells::Cells;
use query_model::{Query, Shape};
use runner_snapshot::{NodeDump, RunnerDump};
use std::alloc::{AllocError, Global};
use std::rc::Rc;

/// A node of which the dump is kept.
#[cycle(restore)]
pub(crate) fn restored_node(
    alloc: Global,
    query: &Query,
    cells: Option<&Rc<Cells>>,
    dump: &NodeDump,
) -> Result<Node, AllocError>
    requires cells { AreCellsFor (option_map rc_value (option_copied cells))
        (plain_of query.now.shape) }
    requires small { inner_of (plain_of query.now.shape) ≤ max_slots }
    requires room { HasRoom (plain_of query.now.shape) (plain_node dump.now) }
    ensures { IfOk result (λ node. IsRestored seen_of
        (option_map rc_value (option_copied cells.entry)) (plain_of query.now.shape)
        (plain_node dump.now) (holding_of node.state)) }
{
    match &query.shape {
        Shape::Atom(..) => match dump {
            NodeDump::Atom(starts) => Ok(restored_atom(starts)),
            _ => unreachable!(),
        },
        Shape::Eps(_) => match dump {
            NodeDump::Eps => Ok(Node { state: State::Eps }),
            _ => unreachable!(),
        },
        Shape::Or(left, right) => match dump {
            NodeDump::Or(a, b) => restored_choice(alloc, left, right, cells, a, b),
            _ => unreachable!(),
        },
        Shape::Apply(inner, _) => match dump {
            NodeDump::Apply(a) => restored_apply(alloc, inner, cells, a),
            _ => unreachable!(),
        },
        Shape::Split(left, right, _) => match dump {
            NodeDump::Split(a, b, entries) => restored_split(
                alloc, left, right, cells, a, b, entries,
            ),
            _ => unreachable!(),
        },
        Shape::Combine(left, right, _) => match dump {
            NodeDump::Combine(a, b) => restored_combine(alloc, left, right, cells, a, b),
            _ => unreachable!(),
        },
        Shape::Iter(inner, ..) => match dump {
            NodeDump::Iter(a, entries) => restored_iter(alloc, inner, cells, a, entries),
            _ => unreachable!(),
        },
        Shape::Compose(left, right) => match dump {
            NodeDump::Compose(a, runners) => restored_compose(
                alloc, left, right, cells, a, runners,
            ),
            _ => unreachable!(),
        },
        Shape::Collect(_, _, rate, inner) => match dump {
            NodeDump::Collect(tracks) => restored_collect(alloc, rate, inner, cells, tracks),
            _ => unreachable!(),
        },
    }
}

#[cycle(restore)]
pub(crate) fn boxed_node(
    alloc: Global,
    query: &Query,
    cells: Option<&Rc<Cells>>,
    dump: &NodeDump,
) -> Result<Box<Node>, AllocError>
    requires query { CanBePutBack (option_map rc_value (option_copied cells))
        (plain_of query.now.shape) }
    requires room { HasRoom (plain_of query.now.shape) (plain_node dump.now) }
    ensures { IfOk result (λ node. IsRestored seen_of
        (option_map rc_value (option_copied cells.entry)) (plain_of query.now.shape)
        (plain_node dump.now) (holding_of node.value.state)) }
{
    Ok(Box::new(alloc, restored_node(alloc, query, cells, dump)?)?)
}

/// A runner of which the dump is kept.
#[cycle(restore)]
pub(crate) fn restored_progress(
    alloc: Global,
    query: &Query,
    cells: Option<&Rc<Cells>>,
    dump: &RunnerDump,
) -> Result<Progress, AllocError>
    requires query { CanBePutBack (option_map rc_value (option_copied cells))
        (plain_of query.now.shape) }
    requires room { HasRoom (plain_of query.now.shape) (plain_node dump.now.node) }
    ensures { IfOk result (IsRestoredRunner seen_of
        (option_map rc_value (option_copied cells.entry)) (plain_of query.now.shape)
        (plain_runner dump.now)) }
{
    let answer = match &dump.answer {
        Some(value) => Some(value.try_copy(alloc)?),
        None => None,
    };
    let node = restored_node(alloc, query, cells, &dump.node)?;
    Ok(Progress {
        node,
        position: dump.position,
        answer,
    })
}
