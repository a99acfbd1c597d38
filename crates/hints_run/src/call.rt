//! The top call.
ghost use Rattle.std.specs.Prelude.{◌≡◌, ◌↔◌, None, Some, IfSome, map, string_bytes};
ghost use Rattle.hints_run.specs.Call.{OutcomeOf, ReadsFor, ReadsQuery};
ghost use Rattle.hints_run.specs.Commands.{command_of};
ghost use Rattle.io_edge.specs.Faults.{LeavesFlushed, ReportsFault};
ghost use Rattle.stream_run.specs.Outside.{outside};

use crate::command::{Command, command_of};
use crate::text_run::run_text;
use io_edge::{Sink, Source, TakeStop, read_to_limit};
use query_compiler::MAX_READ;
use std::alloc::Global;
use stream_run::Status;

/// Does what the words after the program's name ask for. `hints QUERY` writes what there is to
/// report of a query that is accepted. `dead QUERY ITEMS` writes the first line of the items after
/// which no further items lead to a value, with its number. The caller opens what the words QUERY
/// and ITEMS name.
pub fn hints<Q: Source, S: Source, W: Sink>(
    alloc: Global,
    words: &[String],
    query: &mut Q,
    items: &mut S,
    out: &mut W,
) -> Status
    ensures usage { result ≡ Status.Usage ↔ (command_of (map string_bytes words.now) ≡ None) }
    ensures read { ReadsFor (Q.left query.old) (Q.left query.new) (Q.ends query.old)
        (Q.ends query.new) (command_of (map string_bytes words.now)) result }
    ensures outcome { IfSome (Q.left query.old) (λ bytes. let at = outside S.left S.ends W.taken in
        OutcomeOf (command_of (map string_bytes words.now)) bytes result
        (at items.old out.old) (at items.new out.new)) }
    ensures flushed { LeavesFlushed result Status.SinkFault W.held out.old out.new }
    ensures query_faults { ReportsFault result Status.QueryFault Q.faults query.old query.new }
    ensures item_faults { ReportsFault result Status.ItemFault S.faults items.old items.new }
    ensures sink_faults { ReportsFault result Status.SinkFault W.faults out.old out.new }
{
    match command_of(words) {
        Some(command) => run_query(alloc, command, query, items, out),
        None => Status::Usage,
    }
}

// Reads the query, and does what the command asks of it.
fn run_query<Q: Source, S: Source, W: Sink>(
    alloc: Global,
    command: Command,
    query: &mut Q,
    items: &mut S,
    out: &mut W,
) -> Status
    ensures read { ReadsQuery (Q.left query.old) (Q.left query.new) (Q.ends query.old)
        (Q.ends query.new) result }
    ensures outcome { IfSome (Q.left query.old) (λ bytes. let at = outside S.left S.ends W.taken in
        OutcomeOf (Some command) bytes result (at items.old out.old) (at items.new out.new)) }
    ensures no_usage { result ≡ Status.Usage → ⊥ }
    ensures flushed { LeavesFlushed result Status.SinkFault W.held out.old out.new }
    ensures query_faults { ReportsFault result Status.QueryFault Q.faults query.old query.new }
    ensures item_faults { ReportsFault result Status.ItemFault S.faults items.old items.new }
    ensures sink_faults { ReportsFault result Status.SinkFault W.faults out.old out.new }
{
    match read_to_limit(alloc, query, MAX_READ) {
        Ok(text) => run_text(alloc, command, text.as_slice(), items, out),
        Err(TakeStop::Failed) => Status::QueryFault,
        Err(TakeStop::Memory) => Status::Memory,
    }
}
