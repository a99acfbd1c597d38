//! The top call.
ghost use Rattle.std.specs.Prelude.{◌≡◌, ◌↔◌, None, length, map, string_bytes};
ghost use Rattle.io_edge.specs.Faults.{LeavesFlushed, ReportsFault};
ghost use Rattle.stream_run.specs.Outside.{outside};
ghost use Rattle.beside_run.specs.Call.{OutcomeOf};
ghost use Rattle.beside_run.specs.Commands.{command_of};
ghost use Rattle.beside_run.specs.Endings.{LeavesItems};
ghost use Rattle.beside_run.specs.Queries.{OneFailsBy};

use crate::Exit;
use crate::command::command_of;
use crate::engine::carry_out;
use crate::last_line::end_for;
use crate::queries::compile_all;
use io_edge::{Sink, Source};
use std::alloc::Global;
use stream_run::Status;

/// Does what the words after the program's name ask for. `beside QUERY.. ITEMS` writes each line of
/// the items again, and after it what a run of each query writes for it, in a column of its own.
/// `last QUERY ITEMS` writes the answer on all items alone. The caller opens what the words name.
pub fn beside<Q: Source, S: Source, W: Sink>(
    alloc: Global,
    words: &[String],
    queries: &mut [Q],
    items: &mut S,
    out: &mut W,
) -> Exit
    ensures usage { result ≡ Exit.Plain Status.Usage
        ↔ (command_of (map string_bytes words.now) (length queries.old) ≡ None) }
    ensures outcome { let at = outside S.left S.ends W.taken in
        OutcomeOf Q.left Q.ends queries.old queries.new
        (command_of (map string_bytes words.now) (length queries.old)) result
        (at items.old out.old) (at items.new out.new) }
    ensures items { LeavesItems result items.old items.new }
    ensures flushed { LeavesFlushed result (Exit.Plain Status.SinkFault) W.held out.old out.new }
    ensures query_faults { OneFailsBy Q.faults queries.old queries.new
        (result ≡ Exit.Plain Status.QueryFault) }
    ensures item_faults { ReportsFault result (Exit.Plain Status.ItemFault)
        S.faults items.old items.new }
    ensures sink_faults { ReportsFault result (Exit.Plain Status.SinkFault)
        W.faults out.old out.new }
{
    let Some(command) = command_of(words, queries.len()) else {
        return Exit::Plain(Status::Usage);
    };
    match compile_all(alloc, queries) {
        Ok(compiled) => carry_out(alloc, command, &compiled, items, out),
        Err(stop) => end_for(alloc, stop, out),
    }
}
