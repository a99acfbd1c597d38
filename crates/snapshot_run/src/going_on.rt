//! A run goes on from a snapshot.
ghost use Rattle.std.specs.Prelude.{◌≡◌, ℕ, List, Some, Ok, IfSome};
ghost use Rattle.io_edge.specs.Faults.{LeavesFlushed, ReportsFault};
ghost use Rattle.query_compiler.specs.Compiled.{KeepsRules};
ghost use Rattle.query_model.specs.Monitors.{monitor_of};
ghost use Rattle.runner_snapshot.specs.Ranges.{IsSnapshot};
ghost use Rattle.runner_snapshot.specs.Saved.{snapshot_of};
ghost use Rattle.saved_run.specs.Opened.{IsOpened, max_read};
ghost use Rattle.stream_run.specs.Outside.{outside};
ghost use Rattle.snapshot_run.specs.Call.{OutcomeOf};
ghost use Rattle.snapshot_run.specs.GoingOn.{GoesOn, GoesOnFrom};
ghost use Rattle.snapshot_run.specs.Past.{IsPastReading};
ghost use Rattle.snapshot_run.specs.SourceRead.{ReadsSource};

use crate::Exit;
use crate::command::{Command, Onward};
use crate::last_line::write_flaw;
use io_edge::{Sink, Source};
use kept_runner::KeptRunner;
use runner_snapshot::Flaw;
use saved_run::{OpenStop, Opened, advance, open_snapshot, resume};
use std::alloc::Global;
use stream_run::Status;

/// Reads the snapshot, and goes on from it over the items. Of a bad one no item is read.
pub fn go_on<Q: Source, S: Source, W: Sink>(
    alloc: Global,
    onward: Onward,
    snapshot: &mut Q,
    items: &mut S,
    out: &mut W,
) -> Exit
    ensures read { ReadsSource max_read (Q.left snapshot.old) (Q.left snapshot.new)
        (Q.ends snapshot.old) (Q.ends snapshot.new) result }
    ensures outcome { let at = outside S.left S.ends W.taken in
        IfSome (Q.left snapshot.old) (λ bytes. OutcomeOf (Some (Command.GoOn onward)) bytes result
        (at items.old out.old) (at items.new out.new)) }
    ensures no_usage { result ≡ Exit.Plain Status.Usage → ⊥ }
    ensures flushed { LeavesFlushed result (Exit.Plain Status.SinkFault) W.held out.old out.new }
    ensures query_faults { ReportsFault result (Exit.Plain Status.QueryFault)
        Q.faults snapshot.old snapshot.new }
    ensures item_faults { ReportsFault result (Exit.Plain Status.ItemFault)
        S.faults items.old items.new }
    ensures sink_faults { ReportsFault result (Exit.Plain Status.SinkFault)
        W.faults out.old out.new }
{
    match open_snapshot(alloc, snapshot) {
        Ok(opened) => go_on_from(alloc, onward, &opened, items, out),
        Err(OpenStop::Bad(flaw)) => write_flaw(alloc, flaw, out),
        Err(OpenStop::Failed) => Exit::Plain(Status::QueryFault),
        Err(OpenStop::Memory) => Exit::Plain(Status::Memory),
    }
}

// The same of a snapshot that is opened.
fn go_on_from<S: Source, W: Sink>(
    alloc: Global,
    onward: Onward,
    opened: &Opened,
    items: &mut S,
    out: &mut W,
) -> Exit
    requires spelled { IsSnapshot (snapshot_of opened.now.saved.value) }
    requires kept { KeepsRules (monitor_of opened.now.checked.value) }
    ensures goes_on { let at = outside S.left S.ends W.taken in (bytes : List ℕ)
        → IsOpened bytes (snapshot_of opened.now.saved.value)
        (monitor_of opened.now.checked.value)
        → GoesOn onward bytes result (at items.old out.old) (at items.new out.new) }
    ensures past { IsPastReading result }
    ensures flushed { LeavesFlushed result (Exit.Plain Status.SinkFault) W.held out.old out.new }
    ensures item_faults { ReportsFault result (Exit.Plain Status.ItemFault)
        S.faults items.old items.new }
    ensures sink_faults { ReportsFault result (Exit.Plain Status.SinkFault)
        W.faults out.old out.new }
{
    match run_from(alloc, onward, opened, items, out) {
        Ok(status) => Exit::Plain(status),
        Err(flaw) => write_flaw(alloc, flaw, out),
    }
}

// Answers the items, and saves the run after them if that is asked.
fn run_from<S: Source, W: Sink>(
    alloc: Global,
    onward: Onward,
    opened: &Opened,
    items: &mut S,
    out: &mut W,
) -> Result<Status, Flaw>
    requires spelled { IsSnapshot (snapshot_of opened.now.saved.value) }
    ensures went_on { let at = outside S.left S.ends W.taken in
        GoesOnFrom onward (monitor_of opened.now.checked.value)
        (snapshot_of opened.now.saved.value) result (at items.old out.old)
        (at items.new out.new) }
    ensures flushed { LeavesFlushed result (Ok Status.SinkFault) W.held out.old out.new }
    ensures item_faults { ReportsFault result (Ok Status.ItemFault) S.faults items.old items.new }
    ensures sink_faults { ReportsFault result (Ok Status.SinkFault) W.faults out.old out.new }
{
    let checked = &*opened.checked;
    let saved = &*opened.saved;
    match onward {
        Onward::Resume => resume::<KeptRunner, S, W>(alloc, checked, saved, items, out),
        Onward::Advance => advance::<KeptRunner, S, W>(alloc, checked, saved, items, out),
    }
}
