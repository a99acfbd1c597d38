//! The top call.
ghost use Rattle.std.specs.Prelude.{◌≡◌, ◌↔◌, Some, None, map, string_bytes};
ghost use Rattle.io_edge.specs.Faults.{LeavesFlushed, ReportsFault};
ghost use Rattle.stream_run.specs.Outside.{outside};
ghost use Rattle.shard_run.specs.Call.{LeavesItems, Outcome, OutcomeOf};
ghost use Rattle.shard_run.specs.Commands.{HasShards, command_of};

use crate::command::{Command, command_of};
use crate::engine::carry_out;
use crate::judged::{Judged, judge_text};
use crate::reply::{refused, write_reply};
use io_edge::{Sink, Source, TakeStop, read_to_limit};
use query_compiler::MAX_READ;
use std::alloc::{AllocError, Global};
use stream_run::Status;

/// Does what the words after the program's name ask for. `part QUERY` writes the text of the query
/// of a shard, and `mask QUERY` that of the mask. `route QUERY SHARDS ITEMS` writes for every line
/// of the items where it goes. The caller opens what the words QUERY and ITEMS name.
pub fn shard<Q: Source, S: Source, W: Sink>(
    alloc: Global,
    words: &[String],
    query: &mut Q,
    items: &mut S,
    out: &mut W,
) -> Status
    ensures usage { result ≡ Status.Usage ↔ (command_of (map string_bytes words.now) ≡ None) }
    ensures outcome { let at = outside S.left S.ends W.taken in
        OutcomeOf (Q.left query.old) (Q.left query.new) (Q.ends query.old) (Q.ends query.new)
        (at items.old out.old) (at items.new out.new) (command_of (map string_bytes words.now))
        result }
    ensures items { LeavesItems (command_of (map string_bytes words.now)) items.old items.new }
    ensures flushed { LeavesFlushed result Status.SinkFault W.held out.old out.new }
    ensures query_faults { ReportsFault result Status.QueryFault Q.faults query.old query.new }
    ensures item_faults { ReportsFault result Status.ItemFault S.faults items.old items.new }
    ensures sink_faults { ReportsFault result Status.SinkFault W.faults out.old out.new }
{
    let Some(command) = command_of(words) else {
        return Status::Usage;
    };
    match read_to_limit(alloc, query, MAX_READ) {
        Ok(text) => shard_text(alloc, command, text.as_slice(), items, out),
        Err(TakeStop::Failed) => Status::QueryFault,
        Err(TakeStop::Memory) => Status::Memory,
    }
}

// Carries the command out for a query text.
fn shard_text<S: Source, W: Sink>(
    alloc: Global,
    command: Command,
    text: &[u8],
    items: &mut S,
    out: &mut W,
) -> Status
    requires { HasShards command }
    ensures outcome { let at = outside S.left S.ends W.taken in
        Outcome command text.now result (at items.old out.old) (at items.new out.new) }
    ensures items { LeavesItems (Some command) items.old items.new }
    ensures flushed { LeavesFlushed result Status.SinkFault W.held out.old out.new }
    ensures item_faults { ReportsFault result Status.ItemFault S.faults items.old items.new }
    ensures sink_faults { ReportsFault result Status.SinkFault W.faults out.old out.new }
{
    match judge_text(alloc, text) {
        Ok(Judged::Accepted(checked)) => carry_out(alloc, command, &checked, items, out),
        Ok(Judged::Refused(why)) => write_reply(refused(alloc, why), out),
        Err(AllocError) => Status::Memory,
    }
}
