//! What is done with a query that is accepted.
ghost use Rattle.std.specs.Prelude.{◌≡◌, Some, IfOk};
ghost use Rattle.query_model.specs.Bounds.{places_of, slots_of};
ghost use Rattle.query_model.specs.Monitors.{monitor_of};
ghost use Rattle.query_model.specs.Queries.{plain_of};
ghost use Rattle.query_compiler.specs.Compiled.{KeepsRules};
ghost use Rattle.report_writer.specs.Texts.{bound_text};
ghost use Rattle.sqre_run.specs.Call.{LeavesItems};
ghost use Rattle.sqre_run.specs.Carried.{Carried};
ghost use Rattle.item_drill.specs.Drillable.{IsDrillable};
ghost use Rattle.io_edge.specs.Faults.{LeavesFlushed, ReportsFault};
ghost use Rattle.stream_run.specs.Outside.{outside};

use crate::command::Command;
use crate::drill_engine::drill_query;
use crate::rewritten_text::rewritten_text;
use crate::run_engine::run_query;
use io_edge::{Sink, Source};
use language_base::Bytes;
use memory_bound::{places, slots};
use query_model::Checked;
use report_writer::{bound_text, check_text};
use std::alloc::{AllocError, Global};
use stream_run::{Status, report};

/// Carries a command out. Only a run reads the items.
pub fn carry_out<S: Source, W: Sink>(
    alloc: Global,
    command: Command,
    checked: &Checked,
    items: &mut S,
    out: &mut W,
) -> Status
    requires drillable { IsDrillable checked.now.layout }
    requires keeps { KeepsRules (monitor_of checked.now) }
    ensures carried { let at = outside S.left S.ends W.taken in
        Carried command (monitor_of checked.now) result (at items.old out.old)
        (at items.new out.new) }
    ensures items { LeavesItems (Some command) items.old items.new }
    ensures flushed { LeavesFlushed result Status.SinkFault W.held out.old out.new }
    ensures item_faults { ReportsFault result Status.ItemFault S.faults items.old items.new }
    ensures sink_faults { ReportsFault result Status.SinkFault W.faults out.old out.new }
{
    match command {
        Command::Run(engine) => run_query(alloc, engine, checked, items, out),
        Command::Check | Command::Why => report(check_text(alloc), out),
        Command::Bound => report(bound_line(alloc, checked), out),
        Command::Drill { count, seed } => report(drill_query(alloc, checked, count, seed), out),
        Command::Rewrite => report(rewritten_text(alloc, checked), out),
    }
}

fn bound_line(alloc: Global, checked: &Checked) -> Result<Bytes, AllocError>
    ensures { let query = plain_of checked.now.main.shape in
        IfOk result (λ line. line ≡ bound_text (places_of query) (slots_of query)) }
{
    let main = checked.main();
    bound_text(alloc, places(main), slots(main))
}
