//! Which pairs have a position in one of their states.
ghost use Rattle.std.specs.Prelude.{◌≡◌, ◌≤◌, ◌<◌, ◌/◌, ◌%◌, ◌⊎◌, ℕ, IfOk, List, length};
ghost use Rattle.rate_expr.specs.Sets.{Has};
ghost use Rattle.rate_equal.specs.declared.pair.Pair.{Pair as PairOf};
ghost use Rattle.rate_equal.specs.Holding.{AreHeld, HasRow};
ghost use Rattle.rate_equal.specs.PlaceSets.{block_count};
ghost use Rattle.rate_equal.specs.Reach.{max_reach};

use crate::pair::{Pair, mask};
use crate::rows::{ROWS, gather, hold};
use std::alloc::{AllocError, Global};

/// For each position of two automata, the places of the pairs that have it.
#[derive(Drop)]
pub(crate) struct Holders {
    pub(crate) first: Vec<u128>,
    pub(crate) second: Vec<u128>,
    // How many pairs were entered.
    pub(crate) count: usize,
    ghost rows_of_first: { length first.items ≡ max_reach },
    ghost rows_of_second: { length second.items ≡ max_reach },
}

impl Holders {
    pub(crate) fn new(alloc: Global) -> Result<Holders, AllocError>
        ensures none { IfOk result (λ holders. (pairs : List PairOf)
            → AreHeld holders.first.items holders.second.items pairs 0) }
        ensures count { IfOk result (λ holders. holders.count ≡ 0) }
    {
        let first = vec![in alloc; 0; ROWS]?;
        let second = vec![in alloc; 0; ROWS]?;
        Ok(Holders {
            first,
            second,
            count: 0,
        })
    }

    /// Enters the pairs that were appended since the last call.
    pub(crate) fn enter(&mut self, pairs: &[Pair])
        requires few { length pairs.now ≤ max_reach }
        requires entered { self.old.count ≤ length pairs.now }
        requires held { AreHeld self.old.first.items self.old.second.items
            pairs.now self.old.count }
        ensures held { AreHeld self.new.first.items self.new.second.items pairs.now self.new.count }
        ensures count { self.new.count ≡ length pairs.now }
    {
        enter(&mut self.first, &mut self.second, pairs, self.count);
        self.count = pairs.len();
    }

    /// The bits, in a block, of the places of pairs that have at least one of the positions. Bits
    /// outside the mask need not be right.
    pub(crate) fn block(&self, positions: (u128, u128), block: usize, mask: u128) -> u128
        requires { block < block_count }
        ensures first { (position place : ℕ) → Has positions.0 position → place / 128 ≡ block
            → Has mask (place % 128) → HasRow self.now.first.items position place
            → Has result (place % 128) }
        ensures second { (position place : ℕ) → Has positions.1 position → place / 128 ≡ block
            → Has mask (place % 128) → HasRow self.now.second.items position place
            → Has result (place % 128) }
        ensures only { (place : ℕ) → place / 128 ≡ block → Has result (place % 128)
            → ((position : ℕ) × Has positions.0 position
            × HasRow self.now.first.items position place)
            ⊎ ((position : ℕ) × Has positions.1 position
            × HasRow self.now.second.items position place) }
    {
        // Most blocks have no place in the mask.
        if mask == 0 {
            return 0;
        }
        let first = gather(&self.first, positions.0, block);
        let second = gather(&self.second, positions.1, block);
        first | second
    }
}

// Enters the pairs from `start` on.
fn enter(first: &mut [u128], second: &mut [u128], pairs: &[Pair], start: usize)
    requires first { length first.old ≡ max_reach }
    requires second { length second.old ≡ max_reach }
    requires few { length pairs.now ≤ max_reach }
    requires entered { start ≤ length pairs.now }
    requires held { AreHeld first.old second.old pairs.now start }
    ensures { AreHeld first.new second.new pairs.now (length pairs.now) }
{
    'pairs: for place in start..pairs.len() {
        let pair = pairs[place];
        hold(first, mask(pair.first), place);
        hold(second, mask(pair.second), place);
    }
}
