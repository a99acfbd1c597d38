//! The positions that may be next in a reading.
ghost use Rattle.std.specs.Prelude.{◌≡◌, ◌↔◌, ℕ, slice_index};
ghost use Rattle.rate_expr.specs.Paths.{Follows};
ghost use Rattle.rate_expr.specs.Sets.{Has};
ghost use Rattle.ambiguity_check.specs.Factorings.{FollowsInIteration};

use rate_expr::Positions;
use rate_expr::masks::{has, lowest, overlap, without_lowest};

/// The positions that may follow a position.
pub(crate) fn after(positions: &Positions, position: u32) -> u128
    ensures { (next : ℕ) → Has result next ↔ Follows positions.now position next }
{
    if position < positions.count() {
        positions.follow(position)
    } else {
        0
    }
}

/// The positions that may follow some position of the mask.
pub(crate) fn all_after(positions: &Positions, mask: u128) -> u128
    ensures { (next : ℕ) → Has result next
        ↔ ((from : ℕ) × Has mask from × Follows positions.now from next) }
{
    let mut found = 0;
    let mut rest = mask;
    'positions: while rest != 0 {
        found |= after(positions, lowest(rest));
        rest = without_lowest(rest);
    }
    found
}

/// The row of a position. It is empty if there is none.
pub(crate) fn row(rows: &[u128], place: u32) -> u128
    ensures { result ≡ slice_index rows.now place }
{
    rows.get(place as usize).copied().unwrap_or(0)
}

/// The positions that may follow a position, in its word or at the beginning of a next word.
pub(crate) fn onward(positions: &Positions, position: u32) -> u128
    ensures { (next : ℕ) → Has result next ↔ FollowsInIteration positions.now position next }
{
    let within = after(positions, position);
    if has(positions.last(), position) {
        within | positions.first()
    } else {
        within
    }
}

/// The same for some position of the mask.
pub(crate) fn all_onward(positions: &Positions, mask: u128) -> u128
    ensures { (next : ℕ) → Has result next
        ↔ ((from : ℕ) × Has mask from × FollowsInIteration positions.now from next) }
{
    let followers = all_after(positions, mask);
    if overlap(mask, positions.last()) {
        followers | positions.first()
    } else {
        followers
    }
}
