//! The line with which a call ends.
ghost use Rattle.std.specs.Prelude.{◌≡◌, ℕ, List, IfOk};
ghost use Rattle.io_edge.specs.Faults.{EndsFlushed, ReportsFault};
ghost use Rattle.report_writer.specs.Texts.{refusal_text};
ghost use Rattle.saved_run.specs.Texts.{flaw_text};
ghost use Rattle.snapshot_run.specs.LastLines.{EndsWith};

use crate::Exit;
use io_edge::Sink;
use language_base::{Bytes, Refusal};
use report_writer::refusal_text;
use runner_snapshot::Flaw;
use saved_run::flaw_text;
use std::alloc::{AllocError, Global};
use stream_run::{Status, report};

/// Writes the flaw of a snapshot.
pub fn write_flaw<W: Sink>(alloc: Global, flaw: Flaw, out: &mut W) -> Exit
    ensures ends { EndsWith (flaw_text flaw) Exit.BadSnapshot result
        (W.taken out.old) (W.taken out.new) }
    ensures flushed { EndsFlushed result (Exit.Plain Status.SinkFault) W.held out.new }
    ensures sink_faults { ReportsFault result (Exit.Plain Status.SinkFault)
        W.faults out.old out.new }
{
    write_line(flaw_text(alloc, flaw), Exit::BadSnapshot, out)
}

/// Writes the refusal of a query text.
pub fn write_refusal<W: Sink>(alloc: Global, why: Refusal, out: &mut W) -> Exit
    ensures ends { EndsWith (refusal_text why) (Exit.Plain Status.Refused) result
        (W.taken out.old) (W.taken out.new) }
    ensures flushed { EndsFlushed result (Exit.Plain Status.SinkFault) W.held out.new }
    ensures sink_faults { ReportsFault result (Exit.Plain Status.SinkFault)
        W.faults out.old out.new }
{
    write_line(refusal_text(alloc, why), Exit::Plain(Status::Refused), out)
}

/// Writes and flushes a line, with which the call ends so. Out of memory for it, it writes nothing.
fn write_line<W: Sink>(line: Result<Bytes, AllocError>, exit: Exit, out: &mut W) -> Exit
    requires no_fault { exit ≡ Exit.Plain Status.SinkFault → ⊥ }
    ensures ends { (text : List ℕ) → IfOk line (λ line. line ≡ text)
        → EndsWith text exit result (W.taken out.old) (W.taken out.new) }
    ensures flushed { EndsFlushed result (Exit.Plain Status.SinkFault) W.held out.new }
    ensures sink_faults { ReportsFault result (Exit.Plain Status.SinkFault)
        W.faults out.old out.new }
{
    match report(line, out) {
        Status::Done => exit,
        status => Exit::Plain(status),
    }
}
