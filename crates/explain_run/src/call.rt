//! The top call.
ghost use Rattle.std.specs.Prelude.{◌≡◌, ◌≢◌, OnOk, MatchResult};
ghost use Rattle.std.specs.Io.KnownBytes.{Appends};
ghost use Rattle.io_edge.specs.Counts.{FailsByFault};
ghost use Rattle.io_edge.specs.Written.{AppendsSome};
ghost use Rattle.io_edge.specs.Faults.{LeavesFlushed, ReportsFault};
ghost use Rattle.explain_run.specs.Call.{Outcome, Reported};

use crate::Status;
use crate::query::explanation_of;
use io_edge::{Failed, Sink, Source, TakeStop, read_to_limit, write_all};
use query_compiler::MAX_READ;
use std::alloc::{AllocError, Global};

/// Reads the query as a run of it does and, if it is refused, writes and flushes an explanation.
/// The query is called `name` there.
pub fn explain<Q: Source, W: Sink>(alloc: Global, name: &str, query: &mut Q, out: &mut W) -> Status
    ensures outcome { Outcome name.now (Q.left query.old) (Q.left query.new)
        (Q.ends query.old) (Q.ends query.new) (W.taken out.old) (W.taken out.new) result }
    ensures query_faults { ReportsFault result Status.QueryFault Q.faults query.old query.new }
    ensures sink_faults { ReportsFault result Status.SinkFault W.faults out.old out.new }
    ensures flushed { LeavesFlushed result Status.SinkFault W.held out.old out.new }
{
    match read_to_limit(alloc, query, MAX_READ) {
        Ok(text) => explain_text(alloc, name, text.as_slice(), out),
        Err(TakeStop::Failed) => Status::QueryFault,
        Err(TakeStop::Memory) => Status::Memory,
    }
}

// Writes and flushes the explanation of the refusal of a text, if it is refused.
fn explain_text<W: Sink>(alloc: Global, name: &str, text: &[u8], out: &mut W) -> Status
    ensures reported { Reported name.now text.now (W.taken out.old) (W.taken out.new) result }
    ensures faults { ReportsFault result Status.SinkFault W.faults out.old out.new }
    ensures read { result ≢ Status.QueryFault }
    ensures flushed { LeavesFlushed result Status.SinkFault W.held out.old out.new }
{
    match explanation_of(alloc, name, text) {
        Ok(None) => Status::Accepted,
        Ok(Some(shown)) => match write_and_flush(shown.as_slice(), out) {
            Ok(()) => Status::Explained,
            Err(Failed) => Status::SinkFault,
        },
        Err(AllocError) => Status::Memory,
    }
}

// Writes all of the bytes and flushes them.
fn write_and_flush<W: Sink>(bytes: &[u8], out: &mut W) -> Result<(), Failed>
    ensures written { MatchResult result
        (λ _. Appends (W.taken out.old) (W.taken out.new) bytes.now)
        (λ _. AppendsSome (W.taken out.old) (W.taken out.new) bytes.now) }
    ensures flushed { OnOk result (W.held out.new ≡ 0) }
    ensures cause { FailsByFault (W.faults out.old) (W.faults out.new) result }
{
    write_all(out, bytes)?;
    out.flush()
}
