//! Dumps of nodes and runners.
ghost use Rattle.std.specs.Prelude.{◌≡◌, IfOk};
ghost use Rattle.query_model.specs.Queries.{plain_of};
ghost use Rattle.eval_nodes.specs.Plain.{holding_of, seen_of};
ghost use Rattle.runner_snapshot.specs.Plain.{plain_node, plain_runner};
ghost use Rattle.eval_snapshot.specs.Dumped.{dumped, dumped_node};

use crate::node_dumps::{
    dump_of_apply, dump_of_atom, dump_of_choice, dump_of_collect, dump_of_combine, dump_of_compose,
    dump_of_iter, dump_of_split,
};
use eval_nodes::{Node, Progress};
use query_model::{Query, Shape};
use runner_snapshot::{NodeDump, RunnerDump};
use std::alloc::{AllocError, Global};

/// What is kept of a runner of the query.
#[cycle(dump)]
pub fn dump_of_runner(
    query: &Query,
    runner: &Progress,
    alloc: Global,
) -> Result<RunnerDump, AllocError>
    ensures { IfOk result (λ dump. plain_runner dump
        ≡ dumped seen_of (plain_of query.now.shape) runner.now) }
{
    let answer = match &runner.answer {
        Some(value) => Some(value.try_copy(alloc)?),
        None => None,
    };
    let node = dump_of_node(query, &runner.node, alloc)?;
    Ok(RunnerDump {
        position: runner.position,
        answer,
        node,
    })
}

#[cycle(dump)]
fn dump_of_node(query: &Query, node: &Node, alloc: Global) -> Result<NodeDump, AllocError>
    ensures { IfOk result (λ dump. plain_node dump
        ≡ dumped_node seen_of (plain_of query.now.shape) (holding_of node.now.state)) }
{
    match &query.shape {
        Shape::Atom(..) => dump_of_atom(node, alloc),
        Shape::Eps(_) => Ok(NodeDump::Eps),
        Shape::Or(left, right) => dump_of_choice(left, right, node, alloc),
        Shape::Apply(inner, _) => dump_of_apply(inner, node, alloc),
        Shape::Split(left, right, _) => dump_of_split(left, right, node, alloc),
        Shape::Combine(left, right, _) => dump_of_combine(left, right, node, alloc),
        Shape::Iter(inner, ..) => dump_of_iter(inner, node, alloc),
        Shape::Compose(left, right) => dump_of_compose(left, right, node, alloc),
        Shape::Collect(_, _, _, inner) => dump_of_collect(inner, node, alloc),
    }
}

#[cycle(dump)]
pub(crate) fn boxed_dump(
    query: &Query,
    node: &Node,
    alloc: Global,
) -> Result<Box<NodeDump>, AllocError>
    ensures { IfOk result (λ dump. plain_node dump.value
        ≡ dumped_node seen_of (plain_of query.now.shape) (holding_of node.now.state)) }
{
    Ok(Box::new(alloc, dump_of_node(query, node, alloc)?)?)
}
