//! The loop over the lines of the items.
ghost use Rattle.std.specs.Prelude.{◌≡◌, ◌⊎◌, ◌<◌, ◌≤◌, ◌+◌, ◌^◌, true, IfNone, IfSome};
ghost use Rattle.io_edge.specs.Faults.{EndsFlushed, LeavesFlushed, ReportsFault};
ghost use Rattle.io_edge.specs.Limits.{max_count};
ghost use Rattle.io_edge.specs.Lines.{lines};
ghost use Rattle.io_edge.specs.Reported.{IsQuiet};
ghost use Rattle.stream_run.specs.Endings.{EndedBy};
ghost use Rattle.stream_run.specs.Outside.{Outside, outside};
ghost use Rattle.stream_run.specs.Running.{Running, Stops};

use crate::Status;
use crate::replier::Replier;
use crate::writer::{end, flush_before_read, write_reply};
use io_edge::{Failed, Line, LineStop, Lines, Sink, Source};
use std::alloc::{AllocError, Global};

/// Replies to every line of the items, from where the replier stands. All replies are flushed before
/// a read and at the end. One buffer holds the text for each line in turn.
pub fn reply_to_lines<R: Replier, S: Source, W: Sink>(
    alloc: Global,
    replier: &mut R,
    items: &mut S,
    out: &mut W,
) -> Status
    requires ready { R.ready replier.old }
    requires room { R.position replier.old ≤ 2 ^ 62 }
    ensures ended { let at = outside S.left S.ends W.taken in
        EndedBy (R.says replier.old) result (at items.old out.old) (at items.new out.new) }
    ensures after { result ≡ Status.Done → IfSome (S.left items.old) (λ bytes.
        R.stands replier.old (lines bytes true) replier.new) }
    ensures ready { result ≡ Status.Done → R.ready replier.new }
    ensures same { R.same replier.old replier.new }
    ensures flushed { LeavesFlushed result Status.SinkFault W.held out.old out.new }
    ensures item_faults { ReportsFault result Status.ItemFault S.faults items.old items.new }
    ensures sink_faults { ReportsFault result Status.SinkFault W.faults out.old out.new }
{
    let mut lines = match Lines::new(alloc) {
        Ok(lines) => lines,
        Err(AllocError) => return Status::Memory,
    };
    let mut buffer = Vec::new(alloc);
    'lines: loop {
        let ended = match flush_before_read(&lines, out) {
            Ok(()) => turn(alloc, &mut lines, replier, &mut buffer, items, out),
            Err(Failed) => Some(Status::SinkFault),
        };
        if let Some(status) = ended {
            return status;
        }
    }
}

// Replies to one line, by way of the buffer. Whatever run has come to this line, it continues or
// ends.
fn turn<R: Replier, S: Source, W: Sink>(
    alloc: Global,
    lines: &mut Lines,
    replier: &mut R,
    buffer: &mut Vec<u8>,
    items: &mut S,
    out: &mut W,
) -> Option<Status>
    requires ready { R.ready replier.old }
    requires count { R.position replier.old ≤ 2 ^ 62 + lines.old.answered }

    // Before a read, nothing is held back.
    requires flushed { IsQuiet lines.old ⊎ (W.held out.old ≡ 0) }
    ensures continues { let at = outside S.left S.ends W.taken in
        IfNone result ((first : R) (before : Outside)
        → Running R.stands R.says first before (at items.old out.old) lines.old replier.old
        → Running R.stands R.says first before (at items.new out.new) lines.new replier.new) }
    ensures stops { let at = outside S.left S.ends W.taken in
        IfSome result (λ status. (first : R) (before : Outside)
        → Running R.stands R.says first before (at items.old out.old) lines.old replier.old
        → Stops R.stands R.says first status before (at items.new out.new) replier.new) }
    ensures flushed { IfSome result (λ status.
        EndsFlushed status Status.SinkFault W.held out.new) }
    ensures ready { IfNone result (R.ready replier.new
        × (R.position replier.new ≤ 2 ^ 62 + lines.new.answered)) }
    ensures done { IfSome result (λ status. status ≡ Status.Done → R.ready replier.new) }
    ensures same { R.same replier.old replier.new }
    ensures progress { IfNone result ((lines.old.answered < lines.new.answered)
        × (lines.new.answered ≤ max_count)) }
    ensures item_faults { ReportsFault result (Some Status.ItemFault) S.faults items.old items.new }
    ensures sink_faults { ReportsFault result (Some Status.SinkFault) W.faults out.old out.new }
{
    match lines.next(items) {
        Ok(Line::Whole(line)) => write_reply(replier.reply(alloc, line, buffer), out),
        Ok(Line::Long) => write_reply(replier.reply_to_long(buffer), out),
        Ok(Line::End) => Some(end(Status::Done, out)),
        Err(LineStop::Failed) => Some(Status::ItemFault),
        Err(LineStop::Limit) => Some(end(Status::Limit, out)),
    }
}
