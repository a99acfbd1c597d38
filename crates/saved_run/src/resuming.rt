//! A run goes on from a snapshot.
ghost use Rattle.std.specs.Prelude.{◌≡◌, Ok};
ghost use Rattle.io_edge.specs.Faults.{LeavesFlushed, ReportsFault};
ghost use Rattle.query_model.specs.Monitors.{monitor_of};
ghost use Rattle.query_model.specs.Queries.{plain_of};
ghost use Rattle.runner_snapshot.specs.Saved.{snapshot_of};
ghost use Rattle.saved_run.specs.Resuming.{Resumes};
ghost use Rattle.stream_run.specs.Outside.{outside};

use io_edge::{Sink, Source};
use query_model::Checked;
use runner_snapshot::{Flaw, Keepable, Saved, SnapStop};
use std::alloc::Global;
use stream_run::{Session, Status, run_on};

/// Answers every line of the items, after the items and lines that were taken when the snapshot was
/// saved. If the dump does not fit the query, the flaw says so, and nothing was read or written.
pub fn resume<'q, R: Keepable<'q> + Drop, S: Source, W: Sink>(
    alloc: Global,
    checked: &'q Checked,
    saved: &Saved,
    items: &mut S,
    out: &mut W,
) -> Result<Status, Flaw>
    ensures resumed { let at = outside S.left S.ends W.taken in
        let columns = checked.now.layout.columns in let query = plain_of checked.now.main.shape in
        Resumes (R.fits columns query) (R.means columns query) (monitor_of checked.now)
        (snapshot_of saved.now) result (at items.old out.old) (at items.new out.new) }
    ensures flushed { LeavesFlushed result (Ok Status.SinkFault) W.held out.old out.new }
    ensures item_faults { ReportsFault result (Ok Status.ItemFault) S.faults items.old items.new }
    ensures sink_faults { ReportsFault result (Ok Status.SinkFault) W.faults out.old out.new }
{
    let resumed: Result<R, SnapStop> = runner_snapshot::resume(alloc, checked, saved);
    match resumed {
        Ok(follower) => {
            let mut session = Session::resume(checked, follower, saved.began());
            Ok(run_on(alloc, &mut session, items, out))
        }
        Err(SnapStop::Bad(flaw)) => Err(flaw),
        Err(SnapStop::Memory) => Ok(Status::Memory),
    }
}
