//! The line with which a call ends that reads no item.
ghost use Rattle.std.specs.Prelude.{◌≡◌, ◌↔◌, IfOk};
ghost use Rattle.io_edge.specs.Faults.{EndsFlushed, LeavesFlushed, ReportsFault};
ghost use Rattle.beside_run.specs.Compiling.{EndsFor};
ghost use Rattle.beside_run.specs.Endings.{EndsWith};
ghost use Rattle.beside_run.specs.Streams.{other_text};

use crate::Exit;
use io_edge::Sink;
use itoa::Buffer;
use language_base::Bytes;
use query_compiler::QueryStop;
use report_writer::refusal_text;
use std::alloc::{AllocError, Global};
use stream_run::{Status, refuse, report};

/// Ends the call where there is no query to run. Of a refused one the refusal is written.
pub fn end_for<W: Sink>(alloc: Global, stop: QueryStop, out: &mut W) -> Exit
    ensures ends { EndsFor stop result (W.taken out.old) (W.taken out.new) }
    ensures flushed { LeavesFlushed result (Exit.Plain Status.SinkFault) W.held out.old out.new }
    ensures sink_faults { ReportsFault result (Exit.Plain Status.SinkFault)
        W.faults out.old out.new }
{
    Exit::Plain(match stop {
        QueryStop::Failed => Status::QueryFault,
        QueryStop::Refused(why) => refuse(refusal_text(alloc, why), out),
        QueryStop::Ambiguous(blame) => refuse(refusal_text(alloc, blame.refusal()), out),
        QueryStop::Memory => Status::Memory,
    })
}

/// Writes which query has another stream than the first one.
pub fn write_other<W: Sink>(alloc: Global, number: usize, out: &mut W) -> Exit
    ensures ends { EndsWith (other_text number) Exit.OtherStream result
        (W.taken out.old) (W.taken out.new) }
    ensures flushed { EndsFlushed result (Exit.Plain Status.SinkFault) W.held out.new }
    ensures sink_faults { ReportsFault result (Exit.Plain Status.SinkFault)
        W.faults out.old out.new }
{
    match report(other_text(alloc, number), out) {
        Status::Done => Exit::OtherStream,
        status => Exit::Plain(status),
    }
}

fn other_text(alloc: Global, number: usize) -> Result<Bytes, AllocError>
    ensures { IfOk result (λ text. text ≡ other_text number) }
{
    let mut text = Vec::new(alloc);
    let mut buffer = Buffer::new();
    text.extend_from_slice(b"stream ")?;
    text.extend_from_slice(buffer.format(number).as_bytes())?;
    text.extend_from_slice(b"\n")?;
    Ok(Bytes::from_vec(text))
}
