//! The top call.
ghost use Rattle.std.specs.Prelude.{◌≡◌, ◌≢◌, ◌↔◌, None, OnOk, MatchResult, map, string_bytes};
ghost use Rattle.std.specs.Io.KnownBytes.{Appends};
ghost use Rattle.io_edge.specs.Counts.{FailsByFault};
ghost use Rattle.io_edge.specs.Written.{AppendsSome};
ghost use Rattle.io_edge.specs.Faults.{LeavesFlushed, ReportsFault};
ghost use Rattle.expand_run.specs.Call.{Outcome, Written};
ghost use Rattle.expand_run.specs.Commands.{command_of};

use crate::Status;
use crate::command::{Command, command_of};
use crate::reply::{Reply, reply_to};
use io_edge::{Failed, Sink, Source, TakeStop, read_to_limit, write_all};
use std::alloc::{AllocError, Global};

/// The most bytes that are read of a query: one more than a query may have.
const MAX_READ: usize = 65_537;

/// Does what the words after the program's name ask for. `expand QUERY` writes the plain query that
/// a query with templates stands for, or why there is none. `origins QUERY` writes where each
/// of its nodes comes from. `explain QUERY` writes at length why there is no plain query, and
/// nothing if there is one. `mark QUERY FROM TO` writes the line and the column of a place, and its
/// line with marks. The caller opens what the word QUERY names.
pub fn expand<Q: Source, W: Sink>(
    alloc: Global,
    words: &[String],
    query: &mut Q,
    out: &mut W,
) -> Status
    ensures usage { result ≡ Status.Usage ↔ (command_of (map string_bytes words.now) ≡ None) }
    ensures outcome { Outcome (Q.left query.old) (Q.left query.new) (Q.ends query.old)
        (Q.ends query.new) (W.taken out.old) (W.taken out.new)
        (command_of (map string_bytes words.now)) result }
    ensures query_faults { ReportsFault result Status.QueryFault Q.faults query.old query.new }
    ensures sink_faults { ReportsFault result Status.SinkFault W.faults out.old out.new }
    ensures flushed { LeavesFlushed result Status.SinkFault W.held out.old out.new }
{
    let Some(command) = command_of(words) else {
        return Status::Usage;
    };
    match read_to_limit(alloc, query, MAX_READ) {
        Ok(text) => carry_out(alloc, command, text.as_slice(), out),
        Err(TakeStop::Failed) => Status::QueryFault,
        Err(TakeStop::Memory) => Status::Memory,
    }
}

// Writes and flushes what the command says about a text.
fn carry_out<W: Sink>(alloc: Global, command: Command, text: &[u8], out: &mut W) -> Status
    ensures written { Written command text.now result (W.taken out.old) (W.taken out.new) }
    ensures faults { ReportsFault result Status.SinkFault W.faults out.old out.new }
    ensures read { (result ≢ Status.Usage) × (result ≢ Status.QueryFault) }
    ensures flushed { LeavesFlushed result Status.SinkFault W.held out.old out.new }
{
    match reply_to(alloc, command, text) {
        Ok(Reply::Answer(lines)) => match write_and_flush(lines.as_slice(), out) {
            Ok(()) => Status::Done,
            Err(Failed) => Status::SinkFault,
        },
        Ok(Reply::Refusal(lines)) => match write_and_flush(lines.as_slice(), out) {
            Ok(()) => Status::Refused,
            Err(Failed) => Status::SinkFault,
        },
        Err(AllocError) => Status::Memory,
    }
}

// Writes all of the bytes and flushes them.
fn write_and_flush<W: Sink>(bytes: &[u8], out: &mut W) -> Result<(), Failed>
    ensures written { MatchResult result
        (λ _. Appends (W.taken out.old) (W.taken out.new) bytes.now)
        (λ _. AppendsSome (W.taken out.old) (W.taken out.new) bytes.now) }
    ensures flushed { OnOk result (W.held out.new ≡ 0) }
    ensures cause { FailsByFault (W.faults out.old) (W.faults out.new) result }
{
    write_all(out, bytes)?;
    out.flush()
}
