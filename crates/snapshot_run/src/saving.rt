//! A query is run over items, and the run is saved in place of being answered.
ghost use Rattle.std.specs.Prelude.{◌≡◌, Some, IfSome};
ghost use Rattle.io_edge.specs.Faults.{LeavesFlushed, ReportsFault};
ghost use Rattle.query_compiler.specs.Compiled.{Compiles, KeepsRules};
ghost use Rattle.query_compiler.specs.QueryRead.{max_read};
ghost use Rattle.query_model.specs.Monitors.{monitor_of};
ghost use Rattle.stream_run.specs.Outside.{outside};
ghost use Rattle.type_checker.specs.Judged.{accepted};
ghost use Rattle.snapshot_run.specs.Call.{OutcomeOf};
ghost use Rattle.snapshot_run.specs.Past.{IsPastReading};
ghost use Rattle.snapshot_run.specs.Saving.{SavesText};
ghost use Rattle.snapshot_run.specs.SourceRead.{ReadsSource};

use crate::Exit;
use crate::command::Command;
use crate::last_line::{write_flaw, write_refusal};
use io_edge::{Sink, Source, TakeStop, read_to_limit};
use kept_runner::KeptRunner;
use query_compiler::{MAX_READ, QueryStop, compile_text};
use query_model::Checked;
use saved_run::save;
use std::alloc::Global;
use stream_run::Status;

/// Reads the query, takes the items, and writes the snapshot after them.
pub fn save_query<Q: Source, S: Source, W: Sink>(
    alloc: Global,
    query: &mut Q,
    items: &mut S,
    out: &mut W,
) -> Exit
    ensures read { ReadsSource max_read (Q.left query.old) (Q.left query.new)
        (Q.ends query.old) (Q.ends query.new) result }
    ensures outcome { let at = outside S.left S.ends W.taken in
        IfSome (Q.left query.old) (λ text. OutcomeOf (Some Command.Save) text result
        (at items.old out.old) (at items.new out.new)) }
    ensures no_usage { result ≡ Exit.Plain Status.Usage → ⊥ }
    ensures flushed { LeavesFlushed result (Exit.Plain Status.SinkFault) W.held out.old out.new }
    ensures query_faults { ReportsFault result (Exit.Plain Status.QueryFault)
        Q.faults query.old query.new }
    ensures item_faults { ReportsFault result (Exit.Plain Status.ItemFault)
        S.faults items.old items.new }
    ensures sink_faults { ReportsFault result (Exit.Plain Status.SinkFault)
        W.faults out.old out.new }
{
    match read_to_limit(alloc, query, MAX_READ) {
        Ok(text) => save_text(alloc, text.as_slice(), items, out),
        Err(TakeStop::Failed) => Exit::Plain(Status::QueryFault),
        Err(TakeStop::Memory) => Exit::Plain(Status::Memory),
    }
}

fn save_text<S: Source, W: Sink>(alloc: Global, text: &[u8], items: &mut S, out: &mut W) -> Exit
    ensures saves { let at = outside S.left S.ends W.taken in
        SavesText text.now result (at items.old out.old) (at items.new out.new) }
    ensures past { IsPastReading result }
    ensures flushed { LeavesFlushed result (Exit.Plain Status.SinkFault) W.held out.old out.new }
    ensures item_faults { ReportsFault result (Exit.Plain Status.ItemFault)
        S.faults items.old items.new }
    ensures sink_faults { ReportsFault result (Exit.Plain Status.SinkFault)
        W.faults out.old out.new }
{
    match compile_text(alloc, text) {
        Ok(checked) => save_run(alloc, text, &checked, items, out),
        Err(QueryStop::Refused(why)) => write_refusal(alloc, why, out),
        Err(QueryStop::Ambiguous(blame)) => write_refusal(alloc, blame.refusal(), out),
        Err(QueryStop::Memory) => Exit::Plain(Status::Memory),
        // No source is read.
        Err(QueryStop::Failed) => unreachable!(),
    }
}

// The same of a text that is compiled to this query.
fn save_run<S: Source, W: Sink>(
    alloc: Global,
    text: &[u8],
    checked: &Checked,
    items: &mut S,
    out: &mut W,
) -> Exit
    requires compiled { Compiles text.now (accepted (monitor_of checked.now)) }
    requires kept { KeepsRules (monitor_of checked.now) }
    ensures saves { let at = outside S.left S.ends W.taken in
        SavesText text.now result (at items.old out.old) (at items.new out.new) }
    ensures past { IsPastReading result }
    ensures flushed { LeavesFlushed result (Exit.Plain Status.SinkFault) W.held out.old out.new }
    ensures item_faults { ReportsFault result (Exit.Plain Status.ItemFault)
        S.faults items.old items.new }
    ensures sink_faults { ReportsFault result (Exit.Plain Status.SinkFault)
        W.faults out.old out.new }
{
    let Ok(runner) = KeptRunner::new(alloc, checked) else {
        return Exit::Plain(Status::Memory);
    };
    match save(alloc, text, checked, runner, items, out) {
        Ok(status) => Exit::Plain(status),
        Err(flaw) => write_flaw(alloc, flaw, out),
    }
}
