//! Sets of places in a list.
ghost use Rattle.std.specs.Prelude.{◌≡◌, ◌<◌, ℕ, IfOk, slice_index};
ghost use Rattle.rate_equal.specs.PlaceSets.{block_count, AddsBlock, AddsPlace, HasPlace};
ghost use Rattle.rate_equal.specs.PlaceSets.{KeepsBlock};
ghost use Rattle.rate_equal.specs.Reach.{max_reach};

use rate_expr::masks::{lowest, only};
use std::alloc::{AllocError, Global};
use std::marker::Model;

/// How many blocks a set has: as many as 4,096 places need.
pub(crate) const BLOCKS: usize = 32;

/// A set of places below 4,096, seen as blocks of 128 bits.
#[derive(Drop)]
pub(crate) struct Places {
    blocks: Vec<u128>,
}

impl Model for Places {
    ghost use Rattle.std.specs.Prelude.{◌≡◌, ℕ, List, length};
    ghost use Rattle.rate_equal.specs.PlaceSets.{block_count};

    ghost Value = { List ℕ };

    ghost view = { λ p. p.blocks.items };

    ghost invariant = { λ p. length p.blocks.items ≡ block_count };
}

impl Places {
    pub(crate) fn none(alloc: Global) -> Result<Places, AllocError>
        ensures { IfOk result (λ places. (place : ℕ) → HasPlace places place → ⊥) }
    {
        Ok(Places {
            blocks: vec![in alloc; 0; BLOCKS]?,
        })
    }

    pub(crate) fn insert(&mut self, place: usize)
        requires { place < max_reach }
        ensures { AddsPlace self.old self.new place }
    {
        self.insert_all(place / 128, only((place % 128) as u32));
    }

    /// Adds the places of a block whose bits are in the mask.
    pub(crate) fn insert_all(&mut self, block: usize, mask: u128)
        requires { block < block_count }
        ensures { AddsBlock self.old self.new block mask }
    {
        self.blocks[block] |= mask;
    }

    /// Takes out the places of a block whose bits are not in the mask.
    pub(crate) fn keep(&mut self, block: usize, mask: u128)
        requires { block < block_count }
        ensures { KeepsBlock self.old self.new block mask }
    {
        self.blocks[block] &= mask;
    }

    /// How many places are in the set.
    pub(crate) fn len(&self) -> usize {
        let mut count = 0;
        'parts: for block in 0..BLOCKS {
            count += self.blocks[block].count_ones() as usize;
        }
        count
    }

    /// The least place in the set.
    pub(crate) fn first(&self) -> Option<usize> {
        'parts: for block in 0..BLOCKS {
            if self.blocks[block] != 0 {
                return Some(block * 128 + lowest(self.blocks[block]) as usize);
            }
        }
        None
    }

    pub(crate) fn block(&self, block: usize) -> u128
        requires { block < block_count }
        ensures { result ≡ slice_index self.now block }
    {
        self.blocks[block]
    }
}
