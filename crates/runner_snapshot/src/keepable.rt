//! Followers that can be kept in a snapshot.
ghost use Rattle.std.specs.Prelude.{◌≡◌, ◌≤◌, ◌^◌, false, List, IfErr, IfOk, length};
ghost use Rattle.item_schema.specs.declared.column.Column.{Column};
ghost use Rattle.query_model.specs.Checked.{CheckedQuery, IsChecked};
ghost use Rattle.query_model.specs.Queries.{Qre, plain_of};
ghost use Rattle.rate_expr.specs.Words.{Word};
ghost use Rattle.runner_snapshot.specs.Bytes.{runner_bytes};
ghost use Rattle.runner_snapshot.specs.Dumps.{Runner, position_of};
ghost use Rattle.runner_snapshot.specs.Plain.{plain_runner};
ghost use Rattle.runner_snapshot.specs.Ranges.{IsRunner};
ghost use Rattle.runner_snapshot.specs.Stops.{IsUnfit, max_snapshot};

use crate::{RunnerDump, SnapStop};
use query_model::{Checked, Follower};
use std::alloc::{AllocError, Global};

/// A follower that says where it stands, and can be made of what one said.
pub trait Keepable<'q>: Follower {
    /// Where it stands.
    ghost stands: { Self → Runner };

    /// What stands so fits the query on a stream of these columns.
    ghost fits: { List Column → Qre → Runner → Type 0 };

    /// What stands so follows the word, which is one of the stream.
    ghost means: { List Column → Qre → Runner → Word → Type 0 };

    fn dump(&self, alloc: Global) -> Result<RunnerDump, AllocError>
        requires found { Self.lost self.now ≡ false }
        ensures { IfOk result (λ dump. plain_runner dump ≡ stands self.now) };

    /// A follower that stands so.
    fn restore(alloc: Global, checked: &'q Checked, dump: &RunnerDump) -> Result<Self, SnapStop>
        ensures word { IfOk result (λ follower. (word : Word) → means checked.now.layout.columns
            (plain_of checked.now.main.shape) (plain_runner dump.now) word
            → position_of (plain_runner dump.now) ≤ 2 ^ 62 → Self.follows follower word) }
        ensures same { IfOk result (λ follower.
            (Self.query follower ≡ plain_of checked.now.main.shape)
            × (Self.columns follower ≡ checked.now.layout.columns)) }
        ensures found { IfOk result (λ follower. (Self.lost follower ≡ false)
            × (Self.position follower ≡ position_of (plain_runner dump.now))) }
        ensures sound { IfOk result (λ follower. Self.sound follower) }
        ensures fit { IfOk result (λ follower. fits checked.now.layout.columns
            (plain_of checked.now.main.shape) (plain_runner dump.now)) }
        ensures unfit { IfErr result (IsUnfit (fits checked.now.layout.columns
            (plain_of checked.now.main.shape) (plain_runner dump.now))) };

    /// What follows a word stands as what follows the word does.
    ghost stands_after: { (follower : Self) (word : Word) → Self.follows follower word
        → means (Self.columns follower) (Self.query follower) (stands follower) word };

    /// What stands as what follows a word does fits.
    ghost means_fit: { (on : CheckedQuery) (dump : Runner) (word : Word) → IsChecked on
        → means on.layout.columns (plain_of on.main.shape) dump word
        → position_of dump ≤ 2 ^ 62 → fits on.layout.columns (plain_of on.main.shape) dump };

    /// It stands as far as the follower is.
    ghost stands_at: { (follower : Self)
        → position_of (stands follower) ≡ Self.position follower };

    /// What fits is at most at 2^62.
    ghost fits_early: { (columns : List Column) (query : Qre) (dump : Runner)
        → fits columns query dump → position_of dump ≤ 2 ^ 62 };

    /// What fits a checked query has bytes that can be read again, if a snapshot may have as many.
    ghost fits_spelled: { (on : CheckedQuery) (dump : Runner) → IsChecked on
        → fits on.layout.columns (plain_of on.main.shape) dump
        → length (runner_bytes dump) ≤ max_snapshot → IsRunner dump };
}
