//! Whether the runners of a compose fit.
ghost use Rattle.std.specs.Prelude.{◌≤◌, map};
ghost use Rattle.std.specs.List.{AllByRecursion};
ghost use Rattle.query_model.specs.Bounds.{inner_of};
ghost use Rattle.query_model.specs.Queries.{plain_of};
ghost use Rattle.query_model.specs.QueryTypes.{type_of};
ghost use Rattle.query_model.specs.Sizes.{max_slots};
ghost use Rattle.eval_nodes.specs.Starts.{AreDifferent};
ghost use Rattle.runner_snapshot.specs.Plain.{plain_runner, runners_of};
ghost use Rattle.eval_snapshot.specs.Fits.{FitsFed, FitsNode};
ghost use Rattle.dump_fits.specs.Streams.{columns_of};
ghost use Rattle.dump_fits.specs.Telling.{Tells};

use crate::runners::fits_runner;
use crate::stream::Stream;
use indexmap::IndexSet;
use query_model::Query;
use runner_snapshot::{RunnerDump, Runners};
use std::alloc::{AllocError, Global};

/// Each fits and has a start of its own.
#[cycle(fit)]
pub(crate) fn fit_instances(
    alloc: Global,
    query: &Query,
    stream: &Stream,
    position: u64,
    runners: &Runners,
) -> Result<bool, AllocError>
    requires { inner_of (plain_of query.now.shape) ≤ max_slots }
    ensures { Tells result (AreDifferent (map (λ one. one.outer) (runners_of runners.now))
        × AllByRecursion (FitsFed (FitsNode (columns_of stream.now) (plain_of query.now.shape))
        (type_of (columns_of stream.now) (plain_of query.now.shape)) position)
        (runners_of runners.now)) }
{
    let mut outers = IndexSet::new(alloc);
    'runners: for i in 0..runners.len() {
        let (outer, dump) = runners.get(i);
        if !outers.insert(outer)? {
            return Ok(false);
        }
        if !fits_instance(alloc, query, stream, position, outer, dump)? {
            return Ok(false);
        }
    }
    Ok(true)
}

// A runner has seen at most one value for each item, and one on the empty word.
#[cycle(fit)]
fn fits_instance(
    alloc: Global,
    query: &Query,
    stream: &Stream,
    position: u64,
    outer: u64,
    dump: &RunnerDump,
) -> Result<bool, AllocError>
    requires { inner_of (plain_of query.now.shape) ≤ max_slots }
    ensures { Tells result (FitsFed (FitsNode (columns_of stream.now) (plain_of query.now.shape))
        (type_of (columns_of stream.now) (plain_of query.now.shape)) position
        (record { outer = outer; runner = plain_runner dump.now })) }
{
    if outer > position || dump.position.saturating_sub(1) > position {
        return Ok(false);
    }
    fits_runner(alloc, query, stream, dump)
}
