//! The follow sets, as masks.
ghost use Rattle.std.specs.Prelude.{◌≡◌, ◌<◌, ◌≤◌, ◌++◌, length, map, OnOk};
ghost use Rattle.language_base.specs.Limits.{max_positions};
ghost use Rattle.rate_expr.specs.Joined.{moved};
ghost use Rattle.rate_expr.specs.Parts.{linked, all_linked};

use crate::masks::{has, moved};
use std::alloc::AllocError;

/// The mask, with the positions of `to` added if the position is in `from`.
fn linked(from: u128, to: u128, position: u32, mask: u128) -> u128
    ensures { result ≡ linked from to position mask }
{
    if has(from, position) { mask | to } else { mask }
}

/// Lets each position of `to` follow each position of `from`.
pub(crate) fn link(follow: &mut [u128], from: u128, to: u128)
    requires { length follow.old ≤ max_positions }
    ensures { follow.new ≡ all_linked from to 0 follow.old }
{
    for position in 0..follow.len() {
        follow[position] = linked(from, to, position as u32, follow[position]);
    }
}

/// Appends the masks of other positions, each position raised by `count`.
pub(crate) fn append(follow: &mut Vec<u128>, others: &[u128], count: u32) -> Result<(), AllocError>
    ensures { OnOk result
        (follow.new.items ≡ follow.old.items ++ map (moved count) others.now) }
{
    for &mask in others {
        follow.push(moved(mask, count))?;
    }
    Ok(())
}
