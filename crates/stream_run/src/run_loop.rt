//! The run of a query over the lines of the items.
ghost use Rattle.std.specs.Prelude.{◌≡◌, ◌≤◌, ◌^◌, true, [], IfSome};
ghost use Rattle.io_edge.specs.Faults.{LeavesFlushed, ReportsFault};
ghost use Rattle.io_edge.specs.Lines.{lines};
ghost use Rattle.query_model.specs.Monitors.{monitor_of};
ghost use Rattle.query_model.specs.Queries.{plain_of};
ghost use Rattle.stream_run.specs.Endings.{EndedBy};
ghost use Rattle.stream_run.specs.Outside.{outside, Ended};
ghost use Rattle.stream_run.specs.Sessions.{IsAfter, IsReady, IsSaid, origin_of};

use crate::Status;
use crate::reply_loop::reply_to_lines;
use crate::session::Session;
use io_edge::{Sink, Source};
use query_model::{Checked, Follower};
use std::alloc::Global;

/// Answers every line of the items, from the empty word on.
pub fn run<F: Follower + Drop, S: Source, W: Sink>(
    alloc: Global,
    checked: &Checked,
    follower: F,
    items: &mut S,
    out: &mut W,
) -> Status
    requires word { F.follows follower [] }
    requires query { F.query follower ≡ plain_of checked.now.main.shape }
    requires columns { F.columns follower ≡ checked.now.layout.columns }
    ensures ended { let at = outside S.left S.ends W.taken in
        Ended (monitor_of checked.now) result (at items.old out.old) (at items.new out.new) }
    ensures flushed { LeavesFlushed result Status.SinkFault W.held out.old out.new }
    ensures item_faults { ReportsFault result Status.ItemFault S.faults items.old items.new }
    ensures sink_faults { ReportsFault result Status.SinkFault W.faults out.old out.new }
{
    let mut session = Session::begin(checked, follower);
    run_on(alloc, &mut session, items, out)
}

/// Answers every line of the items, from where the session stands. All answers are flushed before a
/// read and at the end.
pub fn run_on<F: Follower, S: Source, W: Sink>(
    alloc: Global,
    session: &mut Session<'_, F>,
    items: &mut S,
    out: &mut W,
) -> Status
    requires ready { IsReady F.query F.columns F.lost F.sound session.old }
    requires room { F.position session.old.follower ≤ 2 ^ 62 }
    ensures ended { let at = outside S.left S.ends W.taken in
        EndedBy (IsSaid F.follows (origin_of session.old)) result
        (at items.old out.old) (at items.new out.new) }
    ensures after { result ≡ Status.Done → IfSome (S.left items.old) (λ bytes.
        IsAfter F.follows (origin_of session.old) (lines bytes true) session.new) }
    ensures ready { result ≡ Status.Done
        → IsReady F.query F.columns F.lost F.sound session.new }
    ensures same { session.new.checked ≡ session.old.checked }
    ensures flushed { LeavesFlushed result Status.SinkFault W.held out.old out.new }
    ensures item_faults { ReportsFault result Status.ItemFault S.faults items.old items.new }
    ensures sink_faults { ReportsFault result Status.SinkFault W.faults out.old out.new }
{
    reply_to_lines(alloc, session, items, out)
}
