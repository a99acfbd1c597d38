//! What a command answers in one text.
ghost use Rattle.std.specs.Prelude.{◌≡◌, IfOk};
ghost use Rattle.io_edge.specs.Faults.{LeavesFlushed, ReportsFault};
ghost use Rattle.report_writer.specs.Texts.{refusal_text};
ghost use Rattle.shard_run.specs.Replied.{Replied};
ghost use Rattle.shard_run.specs.Texts.{whole_text};

use io_edge::Sink;
use language_base::{Bytes, Refusal, Span};
use report_writer::refusal_text;
use std::alloc::{AllocError, Global};
use stream_run::{Status, refuse, report};

#[derive(Drop)]
pub enum Reply {
    /// What was asked for.
    Text(Bytes),
    /// Why there is no such thing.
    Refusal(Bytes),
}

/// That a rule is broken.
pub fn refused(alloc: Global, why: Refusal) -> Result<Reply, AllocError>
    ensures { IfOk result (λ reply. reply ≡ Reply.Refusal (refusal_text why)) }
{
    Ok(Reply::Refusal(refusal_text(alloc, why)?))
}

/// That the main query, which stands there, is no collect.
pub fn whole(alloc: Global, place: Span) -> Result<Reply, AllocError>
    ensures { IfOk result (λ reply. reply ≡ Reply.Refusal (whole_text place)) }
{
    Ok(Reply::Refusal(whole_text(alloc, place)?))
}

fn whole_text(alloc: Global, place: Span) -> Result<Bytes, AllocError>
    ensures { IfOk result (λ text. text ≡ whole_text place) }
{
    let mut text = String::from_str(alloc, "refused whole ")?;
    let Span { from, to } = place;
    write!(text, "{from}..{to}\n")?;
    Ok(Bytes::from_vec(text.into_bytes()))
}

/// Writes and flushes the reply. Out of memory for it, it writes nothing.
pub fn write_reply<W: Sink>(reply: Result<Reply, AllocError>, out: &mut W) -> Status
    ensures replied { Replied result reply (W.taken out.old) (W.taken out.new) }
    ensures flushed { LeavesFlushed result Status.SinkFault W.held out.old out.new }
    ensures sink_faults { ReportsFault result Status.SinkFault W.faults out.old out.new }
{
    match reply {
        Ok(Reply::Text(text)) => report(Ok(text), out),
        Ok(Reply::Refusal(lines)) => refuse(Ok(lines), out),
        Err(AllocError) => Status::Memory,
    }
}
