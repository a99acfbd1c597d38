//! The top call.
ghost use Rattle.std.specs.Prelude.{◌≡◌, ◌↔◌, None, IfSome, map, string_bytes};
ghost use Rattle.io_edge.specs.Faults.{LeavesFlushed, ReportsFault};
ghost use Rattle.stream_run.specs.Outside.{outside};
ghost use Rattle.snapshot_run.specs.Call.{OutcomeOf, ReadsFor};
ghost use Rattle.snapshot_run.specs.Commands.{command_of};

use crate::Exit;
use crate::command::{Command, command_of};
use crate::going_on::go_on;
use crate::saving::save_query;
use io_edge::{Sink, Source};
use std::alloc::Global;
use stream_run::Status;

/// Does what the words after the program's name ask for. `save QUERY ITEMS` runs the query over the
/// items and writes, in place of answers, a snapshot of where it stands after them. `resume
/// SNAPSHOT ITEMS` goes on from a snapshot and answers these items; `advance SNAPSHOT ITEMS` does
/// so, too, and writes after the answers a line with the length of the snapshot after these items,
/// and then that snapshot. The caller opens what the words name.
pub fn snapshot<Q: Source, S: Source, W: Sink>(
    alloc: Global,
    words: &[String],
    query: &mut Q,
    items: &mut S,
    out: &mut W,
) -> Exit
    ensures usage { result ≡ Exit.Plain Status.Usage
        ↔ (command_of (map string_bytes words.now) ≡ None) }
    ensures read { ReadsFor (Q.left query.old) (Q.left query.new) (Q.ends query.old)
        (Q.ends query.new) (command_of (map string_bytes words.now)) result }
    ensures outcome { IfSome (Q.left query.old) (λ bytes. let at = outside S.left S.ends W.taken in
        OutcomeOf (command_of (map string_bytes words.now)) bytes result
        (at items.old out.old) (at items.new out.new)) }
    ensures flushed { LeavesFlushed result (Exit.Plain Status.SinkFault) W.held out.old out.new }
    ensures query_faults { ReportsFault result (Exit.Plain Status.QueryFault)
        Q.faults query.old query.new }
    ensures item_faults { ReportsFault result (Exit.Plain Status.ItemFault)
        S.faults items.old items.new }
    ensures sink_faults { ReportsFault result (Exit.Plain Status.SinkFault)
        W.faults out.old out.new }
{
    match command_of(words) {
        Some(Command::Save) => save_query(alloc, query, items, out),
        Some(Command::GoOn(onward)) => go_on(alloc, onward, query, items, out),
        None => Exit::Plain(Status::Usage),
    }
}
