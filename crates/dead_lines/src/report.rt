//! After which line of the items no further items lead to a value: the lines are read, and it is
//! written.
ghost use Rattle.std.specs.Prelude.{◌≡◌};
ghost use Rattle.dead_example.specs.RateAutomata.{IsOfRate};
ghost use Rattle.dead_lines.specs.Reported.{JudgesLines, ReportsDeadLine};
ghost use Rattle.io_edge.specs.Faults.{LeavesFlushed, ReportsFault};
ghost use Rattle.query_model.specs.Monitors.{Monitor, monitor_of};
ghost use Rattle.query_model.specs.Rates.{rate_of};
ghost use Rattle.query_model.specs.Rules.{free, IsClear};
ghost use Rattle.stream_run.specs.Outside.{outside};

use crate::dead_text::{dead_text, unknown_text};
use crate::watch::Watch;
use dead_example::automaton_of;
use io_edge::{Sink, Source};
use query_model::Checked;
use std::alloc::{AllocError, Global};
use stream_run::{Status, reply_to_lines, report};
use symbolic_nfa::Nfa;

/// Takes all lines of the items, and then writes the first after which no further items lead to a
/// value, with its number, or that there is none.
pub fn write_dead_line<S: Source, W: Sink>(
    alloc: Global,
    checked: &Checked,
    items: &mut S,
    out: &mut W,
) -> Status
    ensures reports { let at = outside S.left S.ends W.taken in
        ReportsDeadLine (monitor_of checked.now) result (at items.old out.old)
        (at items.new out.new) }
    ensures flushed { LeavesFlushed result Status.SinkFault W.held out.old out.new }
    ensures item_faults { ReportsFault result Status.ItemFault S.faults items.old items.new }
    ensures sink_faults { ReportsFault result Status.SinkFault W.faults out.old out.new }
{
    match automaton_of(alloc, checked.schema(), checked.main()) {
        Ok(Some(nfa)) => judge_lines(alloc, &nfa, items, out),
        Ok(None) => report(unknown_text(alloc), out),
        Err(AllocError) => Status::Memory,
    }
}

// The same for a query whose rate the automaton is of.
fn judge_lines<S: Source, W: Sink>(alloc: Global, nfa: &Nfa, items: &mut S, out: &mut W) -> Status
    ensures judges { let at = outside S.left S.ends W.taken in (monitor : Monitor)
        → IsClear free monitor.layout.columns monitor.query
        → IsOfRate monitor.layout (rate_of monitor.query) nfa.now
        → JudgesLines monitor result (at items.old out.old) (at items.new out.new) }
    ensures flushed { LeavesFlushed result Status.SinkFault W.held out.old out.new }
    ensures item_faults { ReportsFault result Status.ItemFault S.faults items.old items.new }
    ensures sink_faults { ReportsFault result Status.SinkFault W.faults out.old out.new }
{
    let mut watch = Watch::begin(alloc, nfa);
    match reply_to_lines(alloc, &mut watch, items, out) {
        Status::Done => report(dead_text(alloc, watch.dead_line()), out),
        status => status,
    }
}
