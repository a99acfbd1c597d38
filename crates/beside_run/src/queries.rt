//! The queries: read from their sources and compiled, in their order.
ghost use Rattle.std.specs.Prelude.{◌≡◌, Err, IfOk, IfErr, OnOk};
ghost use Rattle.io_edge.specs.Counts.{FailsBy};
ghost use Rattle.beside_run.specs.Compiling.{Adds, IsStopAt, monitors_of};
ghost use Rattle.beside_run.specs.Queries.{AreQueries, OneFailsBy, StopsAt};

use io_edge::Source;
use query_compiler::{QueryStop, compile};
use query_model::Checked;
use std::alloc::Global;

/// Reads and compiles all queries. At the first that is none it stops, and the others are not read.
pub fn compile_all<Q: Source>(
    alloc: Global,
    queries: &mut [Q],
) -> Result<Vec<Box<Checked>>, QueryStop>
    ensures compiled { IfOk result (λ all.
        AreQueries Q.left Q.ends queries.old queries.new (monitors_of all.items)) }
    ensures stopped { IfErr result (λ stop.
        StopsAt Q.left Q.ends (IsStopAt Q.left Q.ends stop) queries.old queries.new) }
    ensures faults { OneFailsBy Q.faults queries.old queries.new
        (result ≡ Err QueryStop.Failed) }
{
    let mut all = Vec::new(alloc);
    'queries: for query in queries.iter_mut() {
        compile_next(alloc, query, &mut all)?;
    }
    Ok(all)
}

// Reads and compiles a query, and puts it after the others.
fn compile_next<Q: Source>(
    alloc: Global,
    query: &mut Q,
    all: &mut Vec<Box<Checked>>,
) -> Result<(), QueryStop>
    ensures compiled { OnOk result
        (Adds Q.left Q.ends Q.faults query.old query.new all.old.items all.new.items) }
    ensures stopped { IfErr result (λ stop. IsStopAt Q.left Q.ends stop query.old query.new) }
    ensures cause { FailsBy (Q.faults query.old) (Q.faults query.new)
        (result ≡ Err QueryStop.Failed) }
{
    let checked = compile(alloc, query)?;
    match all.push(checked) {
        Ok(()) => Ok(()),
        Err(_) => Err(QueryStop::Memory),
    }
}
