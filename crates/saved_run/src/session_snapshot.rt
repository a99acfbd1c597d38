//! The snapshot of what a session follows.
ghost use Rattle.std.specs.Prelude.{◌≡◌, ◌≤◌, length};
ghost use Rattle.language_base.specs.Limits.{max_text};
ghost use Rattle.query_model.specs.Queries.{plain_of};
ghost use Rattle.saved_run.specs.Kept.{AreSavedOf, IsKept};
ghost use Rattle.stream_run.specs.Sessions.{IsReady};

use language_base::Bytes;
use query_model::Checked;
use runner_snapshot::{Keepable, SnapStop};
use std::alloc::Global;
use stream_run::Session;

/// The snapshot of a query text, of whether a line has come, and of what the session follows.
pub(crate) fn snapshot_after<'q, R: Keepable<'q>>(
    alloc: Global,
    text: &[u8],
    checked: &Checked,
    session: &Session<'q, R>,
) -> Result<Bytes, SnapStop>
    requires text { length text.now ≤ max_text }
    requires ready { IsReady R.query R.columns R.lost R.sound session.now }
    requires same { session.now.checked.now ≡ checked.now }
    ensures { IsKept (AreSavedOf
        (R.means checked.now.layout.columns (plain_of checked.now.main.shape))
        (R.follows session.now.follower) text.now session.now.began) result }
{
    // Its accessors say that it keeps the limits.
    let _schema = checked.schema();
    runner_snapshot::save(alloc, text, session.began(), session.follower())
}
