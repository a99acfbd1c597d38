//! For each position, the set of the places of the letters or pairs that have it, as a row of 32
//! blocks of 128 bits:
//!
//!     position 0      block 0: places 0 to 127 | block 1: places 128 to 255 | ... | block 31
//!     position 1      block 0                  | block 1                    | ... | block 31
//!     ...
ghost use Rattle.std.specs.Prelude.{◌≡◌, ◌<◌, ◌/◌, ◌%◌, ◌⊎◌, ◌↔◌, ℕ, length};
ghost use Rattle.rate_expr.specs.Sets.{Has};
ghost use Rattle.rate_equal.specs.Holding.{IsInRows, HasRow, KeepsRows};
ghost use Rattle.rate_equal.specs.PlaceSets.{block_count, HasPlace, KeepsPlaces};
ghost use Rattle.rate_equal.specs.Reach.{max_reach};

use crate::places::{BLOCKS, Places};
use rate_expr::masks::{lowest, only, without_lowest};

/// A row of 32 blocks for each of 128 positions.
pub(crate) const ROWS: usize = 4096;

/// Adds the place to the rows of the positions in the mask.
pub(crate) fn hold(rows: &mut [u128], mask: u128, place: usize)
    requires rows { length rows.old ≡ max_reach }
    requires place { place < max_reach }
    ensures kept { KeepsRows rows.old rows.new }
    ensures held { (position : ℕ) → Has mask position → HasRow rows.new position place }
    ensures only { (position other : ℕ) → other < max_reach → HasRow rows.new position other
        → HasRow rows.old position other ⊎ ((place ≡ other) × Has mask position) }
{
    let mut rest = mask;
    'positions: while rest != 0 {
        rows[lowest(rest) as usize * BLOCKS + place / 128] |= only((place % 128) as u32);
        rest = without_lowest(rest);
    }
}

/// The block of the places that have at least one of the positions in the mask.
pub(crate) fn gather(rows: &[u128], mask: u128, block: usize) -> u128
    requires rows { length rows.now ≡ max_reach }
    requires block { block < block_count }
    ensures has { (position place : ℕ) → Has mask position → place / 128 ≡ block
        → HasRow rows.now position place → Has result (place % 128) }
    ensures only { (place : ℕ) → place / 128 ≡ block → Has result (place % 128)
        → (position : ℕ) × Has mask position × HasRow rows.now position place }
{
    let mut found = 0;
    let mut rest = mask;
    'positions: while rest != 0 {
        found |= rows[lowest(rest) as usize * BLOCKS + block];
        rest = without_lowest(rest);
    }
    found
}

/// The block of the places in `some` that have all of the positions in the mask.
pub(crate) fn in_all(rows: &[u128], mask: u128, block: usize, some: u128) -> u128
    requires rows { length rows.now ≡ max_reach }
    requires block { block < block_count }
    ensures { (place : ℕ) → place / 128 ≡ block → Has result (place % 128)
        ↔ (Has some (place % 128) × IsInRows rows.now mask place) }
{
    let mut found = some;
    let mut rest = mask;
    'positions: while rest != 0 && found != 0 {
        found &= rows[lowest(rest) as usize * BLOCKS + block];
        rest = without_lowest(rest);
    }
    found
}

/// Adds the places that differ from the mask at some position on the ways.
pub(crate) fn insert_unlike(rows: &[u128], ways: u128, mask: u128, places: &mut Places)
    requires { length rows.now ≡ max_reach }
    ensures kept { KeepsPlaces places.old places.new }
    ensures unlike { (position place : ℕ) → Has ways position → place < max_reach
        → HasPlace places.new place ⊎ (Has mask position ↔ HasRow rows.now position place) }
{
    insert_rows(rows, without(ways, mask), places);
    insert_lacking(rows, ways & mask, places);
}

/// Adds the places that have at least one of the positions in the mask.
pub(crate) fn insert_rows(rows: &[u128], mask: u128, places: &mut Places)
    requires { length rows.now ≡ max_reach }
    ensures kept { KeepsPlaces places.old places.new }
    ensures held { (position place : ℕ) → Has mask position → place < max_reach
        → HasRow rows.now position place → HasPlace places.new place }
{
    let mut rest = mask;
    'positions: while rest != 0 {
        insert_row(rows, lowest(rest) as usize, places);
        rest = without_lowest(rest);
    }
}

// The same for one position.
fn insert_row(rows: &[u128], position: usize, places: &mut Places)
    requires rows { length rows.now ≡ max_reach }
    requires position { position < 128 }
    ensures kept { KeepsPlaces places.old places.new }
    ensures held { (place : ℕ) → place < max_reach
        → HasRow rows.now position place → HasPlace places.new place }
{
    'parts: for block in 0..BLOCKS {
        places.insert_all(block, rows[position * BLOCKS + block]);
    }
}

// Adds the places that lack at least one of the positions in the mask.
fn insert_lacking(rows: &[u128], mask: u128, places: &mut Places)
    requires { length rows.now ≡ max_reach }
    ensures kept { KeepsPlaces places.old places.new }
    ensures lacking { (position place : ℕ) → Has mask position → place < max_reach
        → (HasRow rows.now position place → ⊥) → HasPlace places.new place }
{
    let mut rest = mask;
    'positions: while rest != 0 {
        insert_row_lacking(rows, lowest(rest) as usize, places);
        rest = without_lowest(rest);
    }
}

// The same for one position.
fn insert_row_lacking(rows: &[u128], position: usize, places: &mut Places)
    requires rows { length rows.now ≡ max_reach }
    requires position { position < 128 }
    ensures kept { KeepsPlaces places.old places.new }
    ensures lacking { (place : ℕ) → place < max_reach
        → (HasRow rows.now position place → ⊥) → HasPlace places.new place }
{
    'parts: for block in 0..BLOCKS {
        places.insert_all(block, !rows[position * BLOCKS + block]);
    }
}

pub(crate) fn without(mask: u128, other: u128) -> u128
    ensures { (position : ℕ)
        → Has result position ↔ (Has mask position × (Has other position → ⊥)) }
{
    mask & !other
}
