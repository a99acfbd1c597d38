//! Sets of positions as masks, in which position p has the bit 2^p.
ghost use Rattle.std.specs.Prelude.{◌≡◌, ◌↔◌, ◌≤◌, ◌<◌, ◌^◌, ℕ, IsTrue, MatchBool};
ghost use Rattle.rate_expr.specs.Joined.{moved};
ghost use Rattle.rate_expr.specs.Sets.{Has, IsLowest};

/// Whether the position is in the mask.
pub fn has(mask: u128, position: u32) -> bool
    ensures { IsTrue result ↔ Has mask position }
{
    position < 128 && (mask >> position) & 1 == 1
}

/// The mask with this position alone.
pub fn only(position: u32) -> u128
    requires { position < 128 }
    ensures { result ≡ 2 ^ position }
{
    1 << position
}

/// One more than the highest position in the mask, or 0 if it has none.
pub fn end_of(mask: u128) -> u32
    ensures few { result ≤ 128 }
    ensures above { (position : ℕ) → Has mask position → position < result }
    ensures least { (bound : ℕ) → mask < 2 ^ bound → result ≤ bound }
{
    128 - mask.leading_zeros()
}

/// Whether some position is in both masks.
pub fn overlap(first: u128, second: u128) -> bool
    ensures { MatchBool result ((position : ℕ) × Has first position × Has second position)
        ((position : ℕ) → Has first position → Has second position → ⊥) }
{
    first & second != 0
}

/// The lowest position in the mask.
pub fn lowest(mask: u128) -> u32
    requires { 0 < mask }
    ensures { IsLowest mask result }
{
    mask.trailing_zeros()
}

/// The mask without its lowest position.
pub fn without_lowest(mask: u128) -> u128
    requires { 0 < mask }
    ensures exact { (position : ℕ)
        → Has result position ↔ (Has mask position × (IsLowest mask position → ⊥)) }
    ensures smaller { result < mask }
{
    mask & (mask - 1)
}

/// The positions raised by `count`; those past 127 are dropped.
pub(crate) fn moved(mask: u128, count: u32) -> u128
    ensures { result ≡ moved count mask }
{
    if count < 128 { mask << count } else { 0 }
}
