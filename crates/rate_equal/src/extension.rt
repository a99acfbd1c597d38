//! The targets of given letters along ways on.
ghost use Rattle.std.specs.Prelude.{◌≡◌, ◌≤◌, ◌<◌, Err, OnOk, length};
ghost use Rattle.rate_equal.specs.declared.stop.EqualStop.TheVariants.{Reach};
ghost use Rattle.rate_equal.specs.Added.{AreTooMany};
ghost use Rattle.rate_equal.specs.PlaceSets.{block_count, HasPlace, IsIn};
ghost use Rattle.rate_equal.specs.Reach.{max_reach};
ghost use Rattle.rate_equal.specs.Targets.{AreAlong, HasThose, IsTarget};

use crate::addition::add;
use crate::alphabet::Alphabet;
use crate::letters::Letter;
use crate::pair::Pair;
use crate::places::{BLOCKS, Places};
use crate::stop::EqualStop;
use indexmap::IndexSet;
use rate_expr::masks::{lowest, without_lowest};
use std::alloc::Global;

// A look for all letters with one target costs a pass over the rows of the ways. It pays while more
// than this number of letters are left for each of the ways.
const PAYS: usize = 4;

/// Adds the targets of the letters whose places are left. Some of these places may be taken out.
pub(crate) fn extend(
    alloc: Global,
    alphabet: &Alphabet,
    left: &mut Places,
    ways: (u128, u128),
    pairs: &mut IndexSet<Pair>,
    targets: &mut Places,
) -> Result<(), EqualStop>
    requires few { length pairs.old.keys ≤ max_reach }
    ensures added { OnOk result (AreAlong alphabet.now.letters.items ways
        pairs.old.keys targets.old pairs.new.keys targets.new) }
    ensures whole { OnOk result (HasThose alphabet.now.letters.items (HasPlace left.old)
        ways pairs.new.keys targets.new) }
    ensures too_many { result ≡ Err Reach
        → AreTooMany pairs.old.keys (IsTarget alphabet.now.letters.items ways) }
{
    let width = (ways.0.count_ones() + ways.1.count_ones()) as usize;
    'looks: for _ in 0..left.len() / (PAYS * (width + 1)) {
        let Some(letter) = alphabet.first_of(left) else {
            break 'looks;
        };
        add(letter.target(ways), pairs, targets)?;
        alphabet.pass(alloc, left, letter, ways)?;
    }
    extend_each(&alphabet.letters, left, ways, pairs, targets)?;
    Ok(())
}

// The same, letter by letter.
fn extend_each(
    letters: &[Letter],
    left: &Places,
    ways: (u128, u128),
    pairs: &mut IndexSet<Pair>,
    targets: &mut Places,
) -> Result<(), EqualStop>
    requires letters { length letters.now ≤ max_reach }
    requires few { length pairs.old.keys ≤ max_reach }
    ensures added { OnOk result (AreAlong letters.now ways
        pairs.old.keys targets.old pairs.new.keys targets.new) }
    ensures whole { OnOk result
        (HasThose letters.now (HasPlace left.now) ways pairs.new.keys targets.new) }
    ensures too_many { result ≡ Err Reach
        → AreTooMany pairs.old.keys (IsTarget letters.now ways) }
{
    'parts: for block in 0..BLOCKS {
        extend_block(letters, block, left.block(block), ways, pairs, targets)?;
    }
    Ok(())
}

// The same for the places of one block.
fn extend_block(
    letters: &[Letter],
    block: usize,
    mask: u128,
    ways: (u128, u128),
    pairs: &mut IndexSet<Pair>,
    targets: &mut Places,
) -> Result<(), EqualStop>
    requires few { length pairs.old.keys ≤ max_reach }
    requires block { block < block_count }
    ensures added { OnOk result (AreAlong letters.now ways
        pairs.old.keys targets.old pairs.new.keys targets.new) }
    ensures whole { OnOk result (HasThose letters.now (IsIn block mask)
        ways pairs.new.keys targets.new) }
    ensures too_many { result ≡ Err Reach
        → AreTooMany pairs.old.keys (IsTarget letters.now ways) }
{
    let mut rest = mask;
    'places: while rest != 0 {
        let place = block * 128 + lowest(rest) as usize;
        if place < letters.len() {
            add(letters[place].target(ways), pairs, targets)?;
        }
        rest = without_lowest(rest);
    }
    Ok(())
}
