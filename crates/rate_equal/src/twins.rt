//! Twins: positions of one or two automata that exactly the same letters have.
//!
//! A rate often asks a predicate at several places, and two rates mostly ask the same ones;
//! positions with the same predicate are twins. A letter has a position exactly if it has its
//! twins, so that only one of them has to be asked.
ghost use Rattle.std.specs.Prelude.{◌≡◌, ◌<◌, ◌⊎◌, ℕ, IsTrue, IfOk, length, slice_index};
ghost use Rattle.rate_expr.specs.Sets.{Has};
ghost use Rattle.rate_equal.specs.Holding.{AreTwins, HaveSameRow};
ghost use Rattle.rate_equal.specs.Reach.{max_reach};

use crate::places::BLOCKS;
use rate_expr::masks::{has, lowest, only, overlap, without_lowest};
use std::alloc::{AllocError, Global};

/// The most positions that an automaton has.
pub(crate) const POSITIONS: usize = 128;

/// For each position of the second rows, its twins in the first rows, of the positions that are
/// used.
pub(crate) fn twins(
    alloc: Global,
    first: &[u128],
    second: &[u128],
    used: (u128, u128),
) -> Result<Vec<u128>, AllocError>
    requires rows_of_first { length first.now ≡ max_reach }
    requires rows_of_second { length second.now ≡ max_reach }
    ensures length { IfOk result (λ twins. length twins.items ≡ 128) }
    ensures twins { IfOk result (λ twins. AreTwins first.now second.now twins.items) }
{
    let mut twins = vec![in alloc; 0; POSITIONS]?;
    enter(&mut twins, first, second, used);
    Ok(twins)
}

// Enters the twins of each position into an empty list.
fn enter(twins: &mut [u128], first: &[u128], second: &[u128], used: (u128, u128))
    requires rows_of_first { length first.now ≡ max_reach }
    requires rows_of_second { length second.now ≡ max_reach }
    requires length { length twins.old ≡ 128 }
    requires none { AreTwins first.now second.now twins.old }
    ensures length { length twins.new ≡ 128 }
    ensures twins { AreTwins first.now second.now twins.new }
{
    'positions: for position in 0..POSITIONS {
        if has(used.1, position as u32) {
            twins[position] = twins_of(first, used.0, second, position);
        }
    }
}

/// The used positions of the first rows whose row equals that of a position of the second rows.
pub(crate) fn twins_of(first: &[u128], used: u128, second: &[u128], position: usize) -> u128
    requires rows_of_first { length first.now ≡ max_reach }
    requires rows_of_second { length second.now ≡ max_reach }
    requires position { position < 128 }
    ensures { (twin : ℕ) → Has result twin → HaveSameRow first.now second.now twin position }
{
    let mut found = 0;
    'twins: for twin in 0..POSITIONS {
        if !has(used, twin as u32) {
            continue 'twins;
        }
        if is_same_row(first, second, twin, position) {
            found |= only(twin as u32);
        }
    }
    found
}

// Whether a row of the first rows equals one of the second.
fn is_same_row(first: &[u128], second: &[u128], one: usize, other: usize) -> bool
    requires rows_of_first { length first.now ≡ max_reach }
    requires rows_of_second { length second.now ≡ max_reach }
    requires one { one < 128 }
    requires other { other < 128 }
    ensures { IsTrue result → HaveSameRow first.now second.now one other }
{
    'parts: for block in 0..BLOCKS {
        if first[one * BLOCKS + block] != second[other * BLOCKS + block] {
            return false;
        }
    }
    true
}

/// The positions of the second mask without a twin in the first.
pub(crate) fn without_twins(twins: &[u128], first: u128, second: u128) -> u128
    requires { length twins.now ≡ 128 }
    ensures { (position : ℕ) → Has second position → Has result position
        ⊎ ((twin : ℕ) × Has first twin × Has (slice_index twins.now position) twin) }
{
    let mut found = 0;
    let mut rest = second;
    'positions: while rest != 0 {
        let position = lowest(rest);
        if !overlap(twins[position as usize], first) {
            found |= only(position);
        }
        rest = without_lowest(rest);
    }
    found
}

/// One twin for each position in the mask: the lowest, which is the same one for all its twins.
pub(crate) fn one_of_each(twins: &[u128], mask: u128) -> u128
    requires { length twins.now ≡ 128 }
    ensures { (position : ℕ) → Has mask position → (twin : ℕ) × Has result twin
        × ((twin ≡ position) ⊎ Has (slice_index twins.now position) twin) }
{
    let mut found = 0;
    let mut rest = mask;
    'positions: while rest != 0 {
        let position = lowest(rest);
        found |= only(lowest_or(twins[position as usize], position));
        rest = without_lowest(rest);
    }
    found
}

// The lowest position of the mask, if it has any, and else the other one.
fn lowest_or(mask: u128, other: u32) -> u32
    requires { other < 128 }
    ensures below { result < 128 }
    ensures is { (result ≡ other) ⊎ Has mask result }
{
    if mask == 0 { other } else { lowest(mask) }
}
