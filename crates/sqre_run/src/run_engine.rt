//! The engine of a run, by what the words ask for.
ghost use Rattle.query_model.specs.Monitors.{monitor_of};
ghost use Rattle.io_edge.specs.Faults.{LeavesFlushed, ReportsFault};
ghost use Rattle.stream_run.specs.Outside.{Ended, outside};

use crate::command::Engine;
use eval_runner::Runner;
use io_edge::{Sink, Source};
use query_model::Checked;
use slow_eval::Slow;
use std::alloc::{AllocError, Global};
use stream_run::{Status, run};

/// Runs the query, whichever engine follows its items.
pub fn run_query<S: Source, W: Sink>(
    alloc: Global,
    engine: Engine,
    checked: &Checked,
    items: &mut S,
    out: &mut W,
) -> Status
    ensures ended { let at = outside S.left S.ends W.taken in
        Ended (monitor_of checked.now) result (at items.old out.old) (at items.new out.new) }
    ensures flushed { LeavesFlushed result Status.SinkFault W.held out.old out.new }
    ensures item_faults { ReportsFault result Status.ItemFault S.faults items.old items.new }
    ensures sink_faults { ReportsFault result Status.SinkFault W.faults out.old out.new }
{
    match engine {
        Engine::Runner => run_item_by_item(alloc, checked, items, out),
        Engine::Slow => run_slow(alloc, checked, items, out),
    }
}

// Runs the query with the engine that goes from item to item.
fn run_item_by_item<S: Source, W: Sink>(
    alloc: Global,
    checked: &Checked,
    items: &mut S,
    out: &mut W,
) -> Status
    ensures ended { let at = outside S.left S.ends W.taken in
        Ended (monitor_of checked.now) result (at items.old out.old) (at items.new out.new) }
    ensures flushed { LeavesFlushed result Status.SinkFault W.held out.old out.new }
    ensures item_faults { ReportsFault result Status.ItemFault S.faults items.old items.new }
    ensures sink_faults { ReportsFault result Status.SinkFault W.faults out.old out.new }
{
    match Runner::new(alloc, checked) {
        Ok(runner) => run(alloc, checked, runner, items, out),
        Err(AllocError) => Status::Memory,
    }
}

// Runs the query with the engine that keeps the whole word.
fn run_slow<S: Source, W: Sink>(
    alloc: Global,
    checked: &Checked,
    items: &mut S,
    out: &mut W,
) -> Status
    ensures ended { let at = outside S.left S.ends W.taken in
        Ended (monitor_of checked.now) result (at items.old out.old) (at items.new out.new) }
    ensures flushed { LeavesFlushed result Status.SinkFault W.held out.old out.new }
    ensures item_faults { ReportsFault result Status.ItemFault S.faults items.old items.new }
    ensures sink_faults { ReportsFault result Status.SinkFault W.faults out.old out.new }
{
    match Slow::new(alloc, checked) {
        Ok(slow) => run(alloc, checked, slow, items, out),
        Err(AllocError) => Status::Memory,
    }
}
