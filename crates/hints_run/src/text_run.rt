//! What is done with a query text.
ghost use Rattle.hints_run.specs.Call.{Carries, Outcome};
ghost use Rattle.hints_run.specs.Past.{IsPastReading};
ghost use Rattle.io_edge.specs.Faults.{LeavesFlushed, ReportsFault};
ghost use Rattle.stream_run.specs.Outside.{outside};
ghost use Rattle.std.specs.Prelude.{◌≡◌};

use crate::all_hints::hints_text;
use crate::command::Command;
use dead_lines::write_dead_line;
use io_edge::{Sink, Source};
use query_compiler::{QueryStop, compile_text};
use query_model::Checked;
use report_writer::refusal_text;
use std::alloc::Global;
use stream_run::{Status, refuse, report};

/// Compiles the text, and carries the command out for its query, or writes its refusal.
pub fn run_text<S: Source, W: Sink>(
    alloc: Global,
    command: Command,
    text: &[u8],
    items: &mut S,
    out: &mut W,
) -> Status
    ensures outcome { let at = outside S.left S.ends W.taken in
        Outcome command text.now result (at items.old out.old) (at items.new out.new) }
    ensures past { IsPastReading result }
    ensures flushed { LeavesFlushed result Status.SinkFault W.held out.old out.new }
    ensures item_faults { ReportsFault result Status.ItemFault S.faults items.old items.new }
    ensures sink_faults { ReportsFault result Status.SinkFault W.faults out.old out.new }
{
    match compile_text(alloc, text) {
        Ok(checked) => carry_out(alloc, command, text, &checked, items, out),
        Err(QueryStop::Refused(why)) => refuse(refusal_text(alloc, why), out),
        Err(QueryStop::Ambiguous(blame)) => refuse(refusal_text(alloc, blame.refusal()), out),
        Err(QueryStop::Memory) => Status::Memory,
        // A text in memory does not fail.
        Err(QueryStop::Failed) => unreachable!(),
    }
}

// Carries the command out for a query with this text.
fn carry_out<S: Source, W: Sink>(
    alloc: Global,
    command: Command,
    text: &[u8],
    checked: &Checked,
    items: &mut S,
    out: &mut W,
) -> Status
    ensures carries { let at = outside S.left S.ends W.taken in
        Carries command text.now checked.now result (at items.old out.old)
        (at items.new out.new) }
    ensures past { IsPastReading result }
    ensures flushed { LeavesFlushed result Status.SinkFault W.held out.old out.new }
    ensures item_faults { ReportsFault result Status.ItemFault S.faults items.old items.new }
    ensures sink_faults { ReportsFault result Status.SinkFault W.faults out.old out.new }
{
    match command {
        Command::Hints => report(hints_text(alloc, text, checked), out),
        Command::Dead => write_dead_line(alloc, checked, items, out),
    }
}
