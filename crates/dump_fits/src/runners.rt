//! Whether runners fit.
ghost use Rattle.std.specs.Prelude.{◌≡◌, ◌≤◌, ◌<◌, ◌↔◌, ◌+◌, ℕ, IsTrue, Some, length, slice_get};
ghost use Rattle.query_model.specs.Bounds.{inner_of};
ghost use Rattle.query_model.specs.Queries.{plain_of};
ghost use Rattle.query_model.specs.QueryTypes.{type_of};
ghost use Rattle.query_model.specs.Sizes.{max_slots};
ghost use Rattle.eval_nodes.specs.Sound.{IsTyped};
ghost use Rattle.runner_snapshot.specs.Plain.{plain_runner};
ghost use Rattle.eval_snapshot.specs.Fits.{FitsNode, FitsRunner};
ghost use Rattle.dump_fits.specs.Streams.{columns_of};
ghost use Rattle.dump_fits.specs.Telling.{Tells};

use crate::nodes::fits_node;
use crate::stream::Stream;
use crate::value_types::value_type;
use query_model::Query;
use runner_snapshot::RunnerDump;
use std::alloc::{AllocError, Global};
use value_ops::{Value, ValueType};

/// The answer has the query's type, and the node fits. How far the runner may be is for the caller
/// to ask.
#[cycle(fit)]
pub(crate) fn fits_runner(
    alloc: Global,
    query: &Query,
    stream: &Stream,
    dump: &RunnerDump,
) -> Result<bool, AllocError>
    requires { inner_of (plain_of query.now.shape) ≤ max_slots }
    ensures { (most : ℕ) → dump.now.position ≤ most → Tells result
        (FitsRunner most (FitsNode (columns_of stream.now) (plain_of query.now.shape))
        (type_of (columns_of stream.now) (plain_of query.now.shape)) (plain_runner dump.now)) }
{
    if !is_typed(&dump.answer, value_type(query, stream)) {
        return Ok(false);
    }
    fits_node(alloc, query, stream, dump.position, &dump.node)
}

fn is_typed(answer: &Option<Value>, ty: ValueType) -> bool
    ensures { IsTrue result ↔ IsTyped ty answer.now }
{
    match answer {
        Some(value) => value.ty() == ty,
        None => true,
    }
}
