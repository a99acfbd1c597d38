//! What the commands write of the lines of the items.
ghost use Rattle.std.specs.Prelude.{◌≡◌, [], IfOk};
ghost use Rattle.std.specs.List.{AllByRecursion};
ghost use Rattle.std.specs.Option.{option_copied};
ghost use Rattle.io_edge.specs.Faults.{LeavesFlushed, ReportsFault};
ghost use Rattle.query_compiler.specs.Compiled.{KeepsRules};
ghost use Rattle.query_model.specs.Monitors.{monitor_of};
ghost use Rattle.query_model.specs.Queries.{plain_of};
ghost use Rattle.report_writer.specs.Texts as texts;
ghost use Rattle.stream_run.specs.Endings.{EndedBy};
ghost use Rattle.stream_run.specs.Outside.{outside};
ghost use Rattle.stream_run.specs.Sessions.{IsReady};
ghost use Rattle.beside_run.specs.Compiling.{IsNew, monitors_in};
ghost use Rattle.beside_run.specs.Outputs.{AreBesides, LastEnded};

use beside_lines::{Beside, Quiet};
use io_edge::{Sink, Source};
use language_base::Bytes;
use query_model::{Checked, Follower};
use report_writer::push_answer;
use std::alloc::{AllocError, Global};
use stream_run::{Session, Status, reply_to_lines, report};
use value_ops::Value;

/// Writes each line again, and beside it what a run of each query writes for it.
pub fn write_beside<F: Follower + Drop, S: Source, W: Sink>(
    alloc: Global,
    sessions: Vec<Session<'_, F>>,
    items: &mut S,
    out: &mut W,
) -> Status
    requires new { AllByRecursion (IsNew F.follows) sessions.items }
    requires ready { AllByRecursion (IsReady F.query F.columns F.lost F.sound) sessions.items }
    ensures ended { let at = outside S.left S.ends W.taken in
        EndedBy (AreBesides (monitors_in sessions.entry.items)) result (at items.old out.old)
        (at items.new out.new) }
    ensures flushed { LeavesFlushed result Status.SinkFault W.held out.old out.new }
    ensures item_faults { ReportsFault result Status.ItemFault S.faults items.old items.new }
    ensures sink_faults { ReportsFault result Status.SinkFault W.faults out.old out.new }
{
    let mut beside = Beside { sessions };
    reply_to_lines(alloc, &mut beside, items, out)
}

/// Takes all lines, and then writes the answer on all items.
pub fn write_last<F: Follower + Drop, S: Source, W: Sink>(
    alloc: Global,
    checked: &Checked,
    follower: F,
    items: &mut S,
    out: &mut W,
) -> Status
    requires word { F.follows follower [] }
    requires query { F.query follower ≡ plain_of checked.now.main.shape }
    requires columns { F.columns follower ≡ checked.now.layout.columns }
    requires keeps { KeepsRules (monitor_of checked.now) }
    ensures ended { let at = outside S.left S.ends W.taken in
        LastEnded (monitor_of checked.now) result (at items.old out.old)
        (at items.new out.new) }
    ensures flushed { LeavesFlushed result Status.SinkFault W.held out.old out.new }
    ensures item_faults { ReportsFault result Status.ItemFault S.faults items.old items.new }
    ensures sink_faults { ReportsFault result Status.SinkFault W.faults out.old out.new }
{
    let mut quiet = Quiet::begin(checked, follower);
    match reply_to_lines(alloc, &mut quiet, items, out) {
        Status::Done => report(answer_text(alloc, quiet.answer()), out),
        status => status,
    }
}

fn answer_text(alloc: Global, answer: Option<&Value>) -> Result<Bytes, AllocError>
    ensures { IfOk result (λ text. text ≡ texts.answer_text (option_copied answer.entry)) }
{
    let mut text = Vec::new(alloc);
    push_answer(answer, &mut text)?;
    Ok(Bytes::from_vec(text))
}
