//! Writes snapshots.
ghost use Rattle.std.specs.Prelude.{◌≡◌, ◌≤◌, ◌-◌, ◌^◌, false, IfErr, IfOk, OnOk, length, min};
ghost use Rattle.language_base.specs.Limits.{max_text};
ghost use Rattle.query_model.specs.Checked.{CheckedQuery, IsChecked};
ghost use Rattle.query_model.specs.Queries.{plain_of};
ghost use Rattle.rate_expr.specs.Words.{Word};
ghost use Rattle.runner_snapshot.specs.Bytes.{snapshot_bytes, snapshot_with};
ghost use Rattle.runner_snapshot.specs.Got.{Gets};
ghost use Rattle.runner_snapshot.specs.Plain.{plain_runner};
ghost use Rattle.runner_snapshot.specs.Ranges.{IsSnapshot};
ghost use Rattle.runner_snapshot.specs.Stops.{IsTooLong, max_snapshot};

use crate::number_bytes::put_text;
use crate::output::{Length, Output};
use crate::reading::{HEAD, MAX_SNAPSHOT};
use crate::{Flaw, Keepable, RunnerDump, SnapStop};
use std::alloc::{AllocError, Global};
use value_ops::Bytes;

fn put_snapshot<O: Output>(
    text: &[u8],
    began: bool,
    dump: &RunnerDump,
    out: &mut O,
) -> Result<(), AllocError>
    ensures { OnOk result (Gets O.got out.old
        (snapshot_bytes (snapshot_with text.now began (plain_runner dump.now))) out.new) }
{
    out.put(&HEAD)?;
    put_text(text, out)?;
    out.put(&[began as u8])?;
    dump.write(out)
}

// How many bytes the snapshot has, or 2^64 - 1 if it has more. None is kept.
fn length_of(text: &[u8], began: bool, dump: &RunnerDump) -> Result<usize, AllocError>
    ensures { IfOk result (λ count. count ≡ min (length
        (snapshot_bytes (snapshot_with text.now began (plain_runner dump.now)))) (2 ^ 64 - 1)) }
{
    let mut length = Length { count: 0 };
    put_snapshot(text, began, dump, &mut length)?;
    Ok(length.count)
}

// The snapshot, unless it has too many bytes; they are counted before the first is kept.
fn snapshot(alloc: Global, text: &[u8], began: bool, dump: &RunnerDump) -> Result<Bytes, SnapStop>
    ensures saved { IfOk result (λ bytes. (bytes
        ≡ snapshot_bytes (snapshot_with text.now began (plain_runner dump.now)))
        × (length bytes ≤ max_snapshot)) }
    ensures stopped { IfErr result
        (IsTooLong (snapshot_bytes (snapshot_with text.now began (plain_runner dump.now)))) }
{
    let count = length_of(text, began, dump)?;
    if count > MAX_SNAPSHOT {
        return Err(SnapStop::Bad(Flaw::Long));
    }
    let mut out = Vec::with_capacity(alloc, count)?;
    put_snapshot(text, began, dump, &mut out)?;
    Ok(Bytes::from_vec(out))
}

/// The snapshot of a query text, of whether lines were taken, and of what follows the query.
pub fn save<'q, R: Keepable<'q>>(
    alloc: Global,
    text: &[u8],
    began: bool,
    runner: &R,
) -> Result<Bytes, SnapStop>
    requires text { length text.now ≤ max_text }
    requires found { R.lost runner.now ≡ false }
    ensures saved { IfOk result (λ bytes.
        (bytes ≡ snapshot_bytes (snapshot_with text.now began (R.stands runner.now)))
        × (length bytes ≤ max_snapshot)) }
    // What is saved of one that follows a word of a checked query can be read again.
    ensures spelled { IfOk result (λ bytes. (on : CheckedQuery) (word : Word) → IsChecked on
        → R.query runner.now ≡ plain_of on.main.shape → R.columns runner.now ≡ on.layout.columns
        → R.follows runner.now word → R.position runner.now ≤ 2 ^ 62
        → IsSnapshot (snapshot_with text.now began (R.stands runner.now))) }
    ensures stopped { IfErr result
        (IsTooLong (snapshot_bytes (snapshot_with text.now began (R.stands runner.now)))) }
{
    let kept = Box::new(alloc, runner.dump(alloc)?)?;
    snapshot(alloc, text, began, &kept)
}
