//! The top call.
ghost use Rattle.std.specs.Prelude.{◌≡◌, ◌↔◌, None, map, string_bytes};
ghost use Rattle.io_edge.specs.Faults.{LeavesFlushed, ReportsFault};
ghost use Rattle.stream_run.specs.Outside.{outside};
ghost use Rattle.view_run.specs.Call.{LeavesItems, OutcomeOf};
ghost use Rattle.view_run.specs.Commands.{command_of};

use crate::command::command_of;
use crate::engine::carry_out;
use io_edge::{Sink, Source};
use query_compiler::{QueryStop, compile};
use report_writer::refusal_text;
use std::alloc::Global;
use stream_run::{Status, refuse};

/// Does what the words after the program's name ask for. `view QUERY ITEMS FORM` writes each line
/// of the items with its answer, and `view QUERY ITEMS FORM DIGITS` with this many digits after the
/// points of answers. `units QUERY` writes how many these are by themselves. The caller opens what
/// the words QUERY and ITEMS name.
pub fn view<Q: Source, S: Source, W: Sink>(
    alloc: Global,
    words: &[String],
    query: &mut Q,
    items: &mut S,
    out: &mut W,
) -> Status
    ensures usage { result ≡ Status.Usage ↔ (command_of (map string_bytes words.now) ≡ None) }
    ensures outcome { let at = outside S.left S.ends W.taken in
        OutcomeOf (Q.left query.old) (Q.left query.new) (Q.ends query.old) (Q.ends query.new)
        (at items.old out.old) (at items.new out.new) (command_of (map string_bytes words.now))
        result }
    ensures items { LeavesItems (command_of (map string_bytes words.now)) result items.old
        items.new }
    ensures flushed { LeavesFlushed result Status.SinkFault W.held out.old out.new }
    ensures query_faults { ReportsFault result Status.QueryFault Q.faults query.old query.new }
    ensures item_faults { ReportsFault result Status.ItemFault S.faults items.old items.new }
    ensures sink_faults { ReportsFault result Status.SinkFault W.faults out.old out.new }
{
    let Some(command) = command_of(words) else {
        return Status::Usage;
    };
    match compile(alloc, query) {
        Ok(checked) => carry_out(alloc, command, &checked, items, out),
        Err(QueryStop::Failed) => Status::QueryFault,
        Err(QueryStop::Refused(why)) => refuse(refusal_text(alloc, why), out),
        Err(QueryStop::Ambiguous(blame)) => refuse(refusal_text(alloc, blame.refusal()), out),
        Err(QueryStop::Memory) => Status::Memory,
    }
}
