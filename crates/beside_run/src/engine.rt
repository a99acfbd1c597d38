//! What is done with queries that are accepted.
ghost use Rattle.std.specs.Prelude.{◌≡◌, [], ◌∷◌, length, map};
ghost use Rattle.std.specs.List.{AllByRecursion};
ghost use Rattle.io_edge.specs.Faults.{LeavesFlushed, ReportsFault};
ghost use Rattle.query_compiler.specs.Compiled.{KeepsRules};
ghost use Rattle.stream_run.specs.Endings.{EndedBy};
ghost use Rattle.stream_run.specs.Outside.{outside};
ghost use Rattle.beside_run.specs.Call.{CarriedOut};
ghost use Rattle.beside_run.specs.Commands.{HasQueries};
ghost use Rattle.beside_run.specs.Compiling.{monitors_of};
ghost use Rattle.beside_run.specs.Endings.{LeavesItems};
ghost use Rattle.beside_run.specs.Outputs.{AreBesides, Carries};

use crate::Exit;
use crate::command::Command;
use crate::last_line::write_other;
use crate::outputs::{write_beside, write_last};
use crate::sessions::sessions_of;
use crate::streams::first_other;
use eval_runner::Runner;
use io_edge::{Sink, Source};
use query_model::Checked;
use std::alloc::Global;
use stream_run::Status;

/// Carries a command out, if the queries have one stream. Else no item is read.
pub fn carry_out<S: Source, W: Sink>(
    alloc: Global,
    command: Command,
    queries: &[Box<Checked>],
    items: &mut S,
    out: &mut W,
) -> Exit
    requires queries { HasQueries command (length queries.now) }
    requires keep { AllByRecursion KeepsRules (monitors_of queries.now) }
    ensures carried { let at = outside S.left S.ends W.taken in
        CarriedOut command (monitors_of queries.now) result (at items.old out.old)
        (at items.new out.new) }
    ensures items { LeavesItems result items.old items.new }
    ensures flushed { LeavesFlushed result (Exit.Plain Status.SinkFault) W.held out.old out.new }
    ensures item_faults { ReportsFault result (Exit.Plain Status.ItemFault)
        S.faults items.old items.new }
    ensures sink_faults { ReportsFault result (Exit.Plain Status.SinkFault)
        W.faults out.old out.new }
{
    match first_other(queries) {
        Some(number) => write_other(alloc, number, out),
        None => Exit::Plain(run_command(alloc, command, queries, items, out)),
    }
}

// Carries a command out, with the engine that goes from item to item.
fn run_command<S: Source, W: Sink>(
    alloc: Global,
    command: Command,
    queries: &[Box<Checked>],
    items: &mut S,
    out: &mut W,
) -> Status
    requires queries { HasQueries command (length queries.now) }
    requires keep { AllByRecursion KeepsRules (monitors_of queries.now) }
    ensures carries { let at = outside S.left S.ends W.taken in
        Carries command (monitors_of queries.now) result (at items.old out.old)
        (at items.new out.new) }
    ensures flushed { LeavesFlushed result Status.SinkFault W.held out.old out.new }
    ensures item_faults { ReportsFault result Status.ItemFault S.faults items.old items.new }
    ensures sink_faults { ReportsFault result Status.SinkFault W.faults out.old out.new }
{
    match command {
        Command::Beside => run_beside(alloc, queries, items, out),
        Command::Last => run_last(alloc, queries, items, out),
    }
}

fn run_beside<S: Source, W: Sink>(
    alloc: Global,
    queries: &[Box<Checked>],
    items: &mut S,
    out: &mut W,
) -> Status
    ensures ended { let at = outside S.left S.ends W.taken in
        EndedBy (AreBesides (monitors_of queries.now)) result (at items.old out.old)
        (at items.new out.new) }
    ensures flushed { LeavesFlushed result Status.SinkFault W.held out.old out.new }
    ensures item_faults { ReportsFault result Status.ItemFault S.faults items.old items.new }
    ensures sink_faults { ReportsFault result Status.SinkFault W.faults out.old out.new }
{
    match sessions_of(alloc, queries) {
        Ok(sessions) => write_beside(alloc, sessions, items, out),
        Err(_) => Status::Memory,
    }
}

fn run_last<S: Source, W: Sink>(
    alloc: Global,
    queries: &[Box<Checked>],
    items: &mut S,
    out: &mut W,
) -> Status
    requires one { length queries.now ≡ 1 }
    requires keep { AllByRecursion KeepsRules (monitors_of queries.now) }
    ensures ended { let at = outside S.left S.ends W.taken in
        Carries Command.Last (monitors_of queries.now) result (at items.old out.old)
        (at items.new out.new) }
    ensures flushed { LeavesFlushed result Status.SinkFault W.held out.old out.new }
    ensures item_faults { ReportsFault result Status.ItemFault S.faults items.old items.new }
    ensures sink_faults { ReportsFault result Status.SinkFault W.faults out.old out.new }
{
    let [checked] = queries else {
        unreachable!();
    };
    match Runner::new(alloc, checked) {
        Ok(runner) => write_last(alloc, checked, runner, items, out),
        Err(_) => Status::Memory,
    }
}
