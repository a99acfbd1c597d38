//! Makes followers of snapshots.
ghost use Rattle.std.specs.Prelude.{◌≡◌, ◌≤◌, ◌^◌, false, IfErr, IfOk};
ghost use Rattle.query_model.specs.Queries.{plain_of};
ghost use Rattle.rate_expr.specs.Words.{Word};
ghost use Rattle.runner_snapshot.specs.Dumps.{position_of};
ghost use Rattle.runner_snapshot.specs.Saved.{snapshot_of};
ghost use Rattle.runner_snapshot.specs.Stops.{IsUnfit};

use crate::{Keepable, Saved, SnapStop};
use query_model::Checked;
use std::alloc::Global;

/// What follows the checked query from where the snapshot was saved.
pub fn resume<'q, R: Keepable<'q>>(
    alloc: Global,
    checked: &'q Checked,
    saved: &Saved,
) -> Result<R, SnapStop>
    ensures word { IfOk result (λ follower. (word : Word) → R.means checked.now.layout.columns
        (plain_of checked.now.main.shape) (snapshot_of saved.now).dump word
        → position_of (snapshot_of saved.now).dump ≤ 2 ^ 62 → R.follows follower word) }
    ensures same { IfOk result (λ follower.
        (R.query follower ≡ plain_of checked.now.main.shape)
        × (R.columns follower ≡ checked.now.layout.columns)) }
    ensures found { IfOk result (λ follower. (R.lost follower ≡ false)
        × (R.position follower ≡ position_of (snapshot_of saved.now).dump)) }
    ensures sound { IfOk result (λ follower. R.sound follower) }
    ensures fit { IfOk result (λ follower. R.fits checked.now.layout.columns
        (plain_of checked.now.main.shape) (snapshot_of saved.now).dump) }
    ensures unfit { IfErr result (IsUnfit (R.fits checked.now.layout.columns
        (plain_of checked.now.main.shape) (snapshot_of saved.now).dump)) }
{
    R::restore(alloc, checked, saved.dump())
}
