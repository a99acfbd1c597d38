//! A run is saved in place of being answered.
ghost use Rattle.std.specs.Prelude.{◌≡◌, ◌≤◌, [], Ok, length};
ghost use Rattle.io_edge.specs.Faults.{LeavesFlushed, ReportsFault};
ghost use Rattle.language_base.specs.Limits.{max_text};
ghost use Rattle.query_model.specs.Queries.{plain_of};
ghost use Rattle.saved_run.specs.Saving.{Saves};
ghost use Rattle.saved_run.specs.Written.{IsWritten};
ghost use Rattle.stream_run.specs.Outside.{outside};

use crate::session_snapshot::snapshot_after;
use io_edge::{Sink, Source, SteadySink};
use language_base::Bytes;
use query_model::Checked;
use runner_snapshot::{Flaw, Keepable, SnapStop};
use std::alloc::Global;
use stream_run::{Session, Status, report, run_on};

/// Takes every line of the items, from the empty word on, and writes no answer, but the snapshot
/// after them. If that is too long, the flaw says so, and nothing was written.
pub fn save<'q, R: Keepable<'q> + Drop, S: Source, W: Sink>(
    alloc: Global,
    text: &[u8],
    checked: &'q Checked,
    follower: R,
    items: &mut S,
    out: &mut W,
) -> Result<Status, Flaw>
    requires text { length text.now ≤ max_text }
    requires word { R.follows follower [] }
    requires query { R.query follower ≡ plain_of checked.now.main.shape }
    requires columns { R.columns follower ≡ checked.now.layout.columns }
    ensures saved { let at = outside S.left S.ends W.taken in
        Saves (R.means checked.now.layout.columns (plain_of checked.now.main.shape)) text.now
        checked.now.layout result (at items.old out.old) (at items.new out.new) }
    ensures flushed { LeavesFlushed result (Ok Status.SinkFault) W.held out.old out.new }
    ensures item_faults { ReportsFault result (Ok Status.ItemFault) S.faults items.old items.new }
    ensures sink_faults { ReportsFault result (Ok Status.SinkFault) W.faults out.old out.new }
{
    let mut session = Session::begin(checked, follower);
    let mut nowhere = SteadySink::new();
    match run_on(alloc, &mut session, items, &mut nowhere) {
        Status::Done => write_snapshot(snapshot_after(alloc, text, checked, &session), out),
        status => Ok(status),
    }
}

// Writes a snapshot as the one text of a call.
fn write_snapshot<W: Sink>(bytes: Result<Bytes, SnapStop>, out: &mut W) -> Result<Status, Flaw>
    ensures written { IsWritten (λ bytes. bytes) result bytes (W.taken out.old) (W.taken out.new) }
    ensures flushed { LeavesFlushed result (Ok Status.SinkFault) W.held out.old out.new }
    ensures sink_faults { ReportsFault result (Ok Status.SinkFault) W.faults out.old out.new }
{
    match bytes {
        Ok(bytes) => Ok(report(Ok(bytes), out)),
        Err(SnapStop::Bad(flaw)) => Err(flaw),
        Err(SnapStop::Memory) => Ok(Status::Memory),
    }
}
