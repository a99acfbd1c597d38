//! What is done with a query that is accepted.
ghost use Rattle.io_edge.specs.Faults.{LeavesFlushed, ReportsFault};
ghost use Rattle.query_compiler.specs.Compiled.{KeepsRules};
ghost use Rattle.query_model.specs.Monitors.{monitor_of};
ghost use Rattle.std.specs.Prelude.{Some};
ghost use Rattle.stream_run.specs.Outside.{outside};
ghost use Rattle.view_run.specs.Call.{LeavesItems};
ghost use Rattle.view_run.specs.Outputs.{Carries};

use crate::command::Command;
use crate::sheet::write_view;
use crate::units::{digits_for, units_line};
use eval_runner::Runner;
use io_edge::{Sink, Source};
use query_model::Checked;
use std::alloc::Global;
use stream_run::{Status, report};
use view_lines::Form;

/// Carries a command out. Only a view reads the items.
pub fn carry_out<S: Source, W: Sink>(
    alloc: Global,
    command: Command,
    checked: &Checked,
    items: &mut S,
    out: &mut W,
) -> Status
    ensures carries { let at = outside S.left S.ends W.taken in
        Carries command (monitor_of checked.now) result (at items.old out.old)
        (at items.new out.new) }
    ensures items { LeavesItems (Some command) result items.old items.new }
    ensures flushed { LeavesFlushed result Status.SinkFault W.held out.old out.new }
    ensures item_faults { ReportsFault result Status.ItemFault S.faults items.old items.new }
    ensures sink_faults { ReportsFault result Status.SinkFault W.faults out.old out.new }
{
    match command {
        Command::View { form, digits } => view_lines(alloc, form, digits, checked, items, out),
        Command::Units => report(units_line(alloc, checked), out),
    }
}

// Writes the lines with their answers, by the engine that goes from item to item.
fn view_lines<S: Source, W: Sink>(
    alloc: Global,
    form: Form,
    asked: Option<u8>,
    checked: &Checked,
    items: &mut S,
    out: &mut W,
) -> Status
    ensures carries { let at = outside S.left S.ends W.taken in
        Carries (Command.View form asked) (monitor_of checked.now) result (at items.old out.old)
        (at items.new out.new) }
    ensures flushed { LeavesFlushed result Status.SinkFault W.held out.old out.new }
    ensures item_faults { ReportsFault result Status.ItemFault S.faults items.old items.new }
    ensures sink_faults { ReportsFault result Status.SinkFault W.faults out.old out.new }
{
    let Ok(digits) = digits_for(alloc, asked, checked) else {
        return Status::Memory;
    };
    let Ok(runner) = Runner::new(alloc, checked) else {
        return Status::Memory;
    };
    write_view(alloc, checked, runner, form, digits, items, out)
}
