//! A run goes on from a snapshot, and is saved after it was answered.
ghost use Rattle.std.specs.Prelude.{◌≡◌, Ok};
ghost use Rattle.io_edge.specs.Faults.{LeavesFlushed, ReportsFault};
ghost use Rattle.query_model.specs.Monitors.{monitor_of};
ghost use Rattle.query_model.specs.Queries.{plain_of};
ghost use Rattle.runner_snapshot.specs.Ranges.{IsSnapshot};
ghost use Rattle.runner_snapshot.specs.Saved.{snapshot_of};
ghost use Rattle.saved_run.specs.Advancing.{Advances};
ghost use Rattle.saved_run.specs.Texts.{snapshot_text};
ghost use Rattle.saved_run.specs.Written.{IsWritten};
ghost use Rattle.stream_run.specs.Outside.{outside};

use crate::session_snapshot::snapshot_after;
use crate::texts::length_text;
use io_edge::{Failed, Sink, Source, write_all};
use language_base::Bytes;
use query_model::Checked;
use runner_snapshot::{Flaw, Keepable, Saved, SnapStop};
use std::alloc::Global;
use stream_run::{Session, Status, report, run_on};

/// Answers every line of the items as a resumed run does, and writes the length of the snapshot
/// after them and then the snapshot. If that is too long, the flaw says so after the answers, and
/// nothing more was written.
pub fn advance<'q, R: Keepable<'q> + Drop, S: Source, W: Sink>(
    alloc: Global,
    checked: &'q Checked,
    saved: &Saved,
    items: &mut S,
    out: &mut W,
) -> Result<Status, Flaw>
    requires snapshot { IsSnapshot (snapshot_of saved.now) }
    ensures advanced { let at = outside S.left S.ends W.taken in
        let columns = checked.now.layout.columns in let query = plain_of checked.now.main.shape in
        Advances (R.fits columns query) (R.means columns query) (monitor_of checked.now)
        (snapshot_of saved.now) result (at items.old out.old) (at items.new out.new) }
    ensures flushed { LeavesFlushed result (Ok Status.SinkFault) W.held out.old out.new }
    ensures item_faults { ReportsFault result (Ok Status.ItemFault) S.faults items.old items.new }
    ensures sink_faults { ReportsFault result (Ok Status.SinkFault) W.faults out.old out.new }
{
    let resumed: Result<R, SnapStop> = runner_snapshot::resume(alloc, checked, saved);
    match resumed {
        Ok(follower) => {
            let mut session = Session::resume(checked, follower, saved.began());
            match run_on(alloc, &mut session, items, out) {
                Status::Done => {
                    append(
                        alloc,
                        snapshot_after(alloc, saved.text(), checked, &session),
                        out,
                    )
                }
                status => Ok(status),
            }
        }
        Err(SnapStop::Bad(flaw)) => Err(flaw),
        Err(SnapStop::Memory) => Ok(Status::Memory),
    }
}

// Writes a snapshot after its length.
fn append<W: Sink>(
    alloc: Global,
    bytes: Result<Bytes, SnapStop>,
    out: &mut W,
) -> Result<Status, Flaw>
    ensures written { IsWritten snapshot_text result bytes (W.taken out.old) (W.taken out.new) }
    ensures flushed { LeavesFlushed result (Ok Status.SinkFault) W.held out.old out.new }
    ensures sink_faults { ReportsFault result (Ok Status.SinkFault) W.faults out.old out.new }
{
    match bytes {
        Ok(bytes) => Ok(write_after_length(alloc, bytes, out)),
        Err(SnapStop::Bad(flaw)) => Err(flaw),
        Err(SnapStop::Memory) => Ok(Status::Memory),
    }
}

// If memory runs out, it does before anything is written.
fn write_after_length<W: Sink>(alloc: Global, bytes: Bytes, out: &mut W) -> Status
    ensures written { IsWritten snapshot_text (Ok result) (Ok bytes)
        (W.taken out.old) (W.taken out.new) }
    ensures flushed { LeavesFlushed result Status.SinkFault W.held out.old out.new }
    ensures sink_faults { ReportsFault result Status.SinkFault W.faults out.old out.new }
{
    let Ok(line) = length_text(alloc, bytes.as_slice().len()) else {
        return Status::Memory;
    };
    match write_all(out, line.as_slice()) {
        Ok(()) => report(Ok(bytes), out),
        Err(Failed) => Status::SinkFault,
    }
}
