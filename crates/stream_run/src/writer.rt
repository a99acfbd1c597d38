//! Texts are written to the sink, and the sink is flushed.
ghost use Rattle.std.specs.Prelude.{◌≡◌, ◌⊎◌, IfSome, OnOk};
ghost use Rattle.io_edge.specs.Counts.{FailsByFault};
ghost use Rattle.io_edge.specs.Reported.{IsQuiet};
ghost use Rattle.io_edge.specs.Faults.{EndsFlushed, LeavesFlushed, ReportsFault};
ghost use Rattle.stream_run.specs.Written.{Refuses, Replied, Reported};

use crate::Status;
use io_edge::{Failed, Lines, Sink, write_all};
use language_base::Bytes;
use std::alloc::AllocError;

/// Writes a text whole, or returns the status with which the call ends since it cannot.
#[inline(always)]
pub fn write_reply<W: Sink>(reply: Result<&[u8], AllocError>, out: &mut W) -> Option<Status>
    ensures replied { Replied result reply.entry (W.taken out.old) (W.taken out.new) }
    ensures flushed { IfSome result (λ status.
        EndsFlushed status Status.SinkFault W.held out.new) }
    ensures sink_faults { ReportsFault result (Some Status.SinkFault) W.faults out.old out.new }
{
    let Ok(reply) = reply else {
        return Some(end(Status::Memory, out));
    };
    match write_all(out, reply) {
        Ok(()) => None,
        Err(Failed) => Some(Status::SinkFault),
    }
}

/// Writes and flushes the one line of a command, and returns the status with which the call ends.
pub fn report<W: Sink>(line: Result<Bytes, AllocError>, out: &mut W) -> Status
    ensures reported { Reported result line (W.taken out.old) (W.taken out.new) }
    ensures flushed { EndsFlushed result Status.SinkFault W.held out.new }
    ensures sink_faults { ReportsFault result Status.SinkFault W.faults out.old out.new }
{
    let Ok(line) = line else {
        return end(Status::Memory, out);
    };
    match write_all(out, line.as_slice()) {
        Ok(()) => end(Status::Done, out),
        Err(Failed) => Status::SinkFault,
    }
}

/// Writes the lines of a refusal and flushes them. Out of memory for them, it writes nothing.
pub fn refuse<W: Sink>(lines: Result<Bytes, AllocError>, out: &mut W) -> Status
    ensures refuses { Refuses result lines (W.taken out.old) (W.taken out.new) }
    ensures flushed { LeavesFlushed result Status.SinkFault W.held out.old out.new }
    ensures cause { ReportsFault result Status.SinkFault W.faults out.old out.new }
{
    let Ok(lines) = lines else {
        return Status::Memory;
    };
    match write_all(out, lines.as_slice()) {
        Ok(()) => end(Status::Refused, out),
        Err(Failed) => Status::SinkFault,
    }
}

/// Flushes the sink and ends the call with the status, or with a fault of the sink.
pub fn end<W: Sink>(status: Status, out: &mut W) -> Status
    requires no_fault { status ≡ Status.SinkFault → ⊥ }
    ensures ends { (result ≡ status) ⊎ (result ≡ Status.SinkFault) }
    ensures taken { W.taken out.new ≡ W.taken out.old }
    ensures flushed { EndsFlushed result Status.SinkFault W.held out.new }
    ensures sink_faults { ReportsFault result Status.SinkFault W.faults out.old out.new }
{
    match out.flush() {
        Ok(()) => status,
        Err(Failed) => Status::SinkFault,
    }
}

/// Flushes the sink if a read is needed for the next line.
#[inline(always)]
pub fn flush_before_read<W: Sink>(lines: &Lines, out: &mut W) -> Result<(), Failed>
    ensures calm { OnOk result (IsQuiet lines.now ⊎ (W.held out.new ≡ 0)) }
    ensures taken { W.taken out.new ≡ W.taken out.old }
    ensures cause { FailsByFault (W.faults out.old) (W.faults out.new) result }
{
    if lines.is_ready() {
        return Ok(());
    }
    out.flush()
}
