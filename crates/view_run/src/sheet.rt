//! The lines of the items with their answers.
ghost use Rattle.std.specs.Prelude.{◌≡◌, []};
ghost use Rattle.io_edge.specs.Faults.{LeavesFlushed, ReportsFault};
ghost use Rattle.query_model.specs.Monitors.{monitor_of};
ghost use Rattle.query_model.specs.Queries.{plain_of};
ghost use Rattle.stream_run.specs.Endings.{EndedBy};
ghost use Rattle.stream_run.specs.Outside.{outside};
ghost use Rattle.view_run.specs.Outputs.{AreViews, style_with};

use io_edge::{Sink, Source};
use query_model::{Checked, Follower};
use std::alloc::Global;
use stream_run::{Status, reply_to_lines};
use view_lines::{Form, View};

/// Writes each line with its answer, in this form and with this many digits after the point.
pub fn write_view<F: Follower + Drop, S: Source, W: Sink>(
    alloc: Global,
    checked: &Checked,
    follower: F,
    form: Form,
    digits: u8,
    items: &mut S,
    out: &mut W,
) -> Status
    requires word { F.follows follower [] }
    requires query { F.query follower ≡ plain_of checked.now.main.shape }
    requires columns { F.columns follower ≡ checked.now.layout.columns }
    ensures ended { let at = outside S.left S.ends W.taken in
        EndedBy (AreViews (style_with form digits) (monitor_of checked.now)) result
        (at items.old out.old) (at items.new out.new) }
    ensures flushed { LeavesFlushed result Status.SinkFault W.held out.old out.new }
    ensures item_faults { ReportsFault result Status.ItemFault S.faults items.old items.new }
    ensures sink_faults { ReportsFault result Status.SinkFault W.faults out.old out.new }
{
    let mut view = View::begin(alloc, checked, follower, form, digits);
    reply_to_lines(alloc, &mut view, items, out)
}
