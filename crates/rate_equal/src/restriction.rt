//! The targets along ways on, derived from the targets along known ways on.
//!
//! The target of a letter along some ways has the positions of the letter that are on these ways.
//! So the target along the known ways, without the positions that the new ways lack, is the target
//! along the positions that both have.
ghost use Rattle.std.specs.Prelude.{◌≡◌, ◌≤◌, ◌<◌, ◌+◌, ◌*◌, ℕ, Err, OnOk, Some, length, slice_get};
ghost use Rattle.rate_expr.specs.Sets.{Has};
ghost use Rattle.rate_equal.specs.declared.pair.Pair.{Pair as PairOf};
ghost use Rattle.rate_equal.specs.declared.stop.EqualStop.TheVariants.{Reach};
ghost use Rattle.rate_equal.specs.Added.{AreTooMany, HasPair};
ghost use Rattle.rate_equal.specs.Holding.{AreHeld};
ghost use Rattle.rate_equal.specs.Free.{AreKnownFree, CanLack};
ghost use Rattle.rate_equal.specs.Narrowed.{AreLost, narrowed};
ghost use Rattle.rate_equal.specs.PlaceSets.{block_count, IsIn};
ghost use Rattle.rate_equal.specs.Reach.{max_reach};
ghost use Rattle.rate_equal.specs.Targets.{AreAlong, HasNarrowed, HasTargets, IsTarget};

use crate::admission::admit;
use crate::alphabet::Alphabet;
use crate::holders::Holders;
use crate::known_sets::Known;
use crate::letters::Letter;
use crate::pair::Pair;
use crate::places::{BLOCKS, Places};
use crate::rows::without;
use crate::stop::EqualStop;
use indexmap::IndexSet;
use rate_expr::masks::{lowest, without_lowest};

/// Cuts each known target down to the ways, and admits what is left.
pub(crate) fn narrow(
    alphabet: &Alphabet,
    near: &Known,
    ways: (u128, u128),
    holders: &Holders,
    pairs: &mut IndexSet<Pair>,
    targets: &mut Places,
) -> Result<(), EqualStop>
    requires free { AreKnownFree alphabet.now.letters.items
        alphabet.now.free.first.items alphabet.now.free.second.items }
    requires few { length pairs.old.keys ≤ max_reach }
    requires known { HasTargets alphabet.now.letters.items near.now.ways
        pairs.old.keys near.now.targets }
    requires held { AreHeld holders.now.first.items holders.now.second.items
        pairs.old.keys (length pairs.old.keys) }
    ensures added { OnOk result (AreAlong alphabet.now.letters.items ways
        pairs.old.keys targets.old pairs.new.keys targets.new) }
    ensures whole { OnOk result (HasNarrowed alphabet.now.letters.items ways
        pairs.old.keys near.now.targets pairs.new.keys targets.new) }
    ensures too_many { result ≡ Err Reach
        → AreTooMany pairs.old.keys (IsTarget alphabet.now.letters.items ways) }
{
    let lost = (without(near.ways.0, ways.0), without(near.ways.1, ways.1));
    if alphabet.free.can_lack(&alphabet.letters, lost, ways) {
        keep_lacking(
            &alphabet.letters,
            near,
            lost,
            ways,
            holders,
            pairs.as_slice(),
            targets,
        );
        return Ok(());
    }
    narrow_each(&alphabet.letters, near, lost, ways, holders, pairs, targets)
}

// Keeps the known targets that lack the positions, where each letter can lack them.
fn keep_lacking(
    letters: &[Letter],
    near: &Known,
    lost: (u128, u128),
    ways: (u128, u128),
    holders: &Holders,
    pairs: &[Pair],
    targets: &mut Places,
)
    requires few { length pairs.now ≤ max_reach }
    requires lost { AreLost near.now.ways ways lost }
    requires lack { CanLack letters.now lost ways }
    requires known { HasTargets letters.now near.now.ways pairs.now near.now.targets }
    requires held { AreHeld holders.now.first.items holders.now.second.items
        pairs.now (length pairs.now) }
    ensures added { AreAlong letters.now ways pairs.now targets.old pairs.now targets.new }
    ensures whole { HasNarrowed letters.now ways
        pairs.now near.now.targets pairs.now targets.new }
{
    'parts: for block in 0..BLOCKS {
        let known = near.targets.block(block);
        let losing = holders.block(lost, block, known);
        targets.insert_all(block, known & !losing);
    }
}

// The same for each known target.
fn narrow_each(
    letters: &[Letter],
    near: &Known,
    lost: (u128, u128),
    ways: (u128, u128),
    holders: &Holders,
    pairs: &mut IndexSet<Pair>,
    targets: &mut Places,
) -> Result<(), EqualStop>
    requires few { length pairs.old.keys ≤ max_reach }
    requires lost { AreLost near.now.ways ways lost }
    requires known { HasTargets letters.now near.now.ways pairs.old.keys near.now.targets }
    requires held { AreHeld holders.now.first.items holders.now.second.items
        pairs.old.keys (length pairs.old.keys) }
    ensures added { OnOk result (AreAlong letters.now ways
        pairs.old.keys targets.old pairs.new.keys targets.new) }
    ensures whole { OnOk result (HasNarrowed letters.now ways
        pairs.old.keys near.now.targets pairs.new.keys targets.new) }
    ensures too_many { result ≡ Err Reach
        → AreTooMany pairs.old.keys (IsTarget letters.now ways) }
{
    'parts: for block in 0..BLOCKS {
        let known = near.targets.block(block);
        if known == 0 {
            continue 'parts;
        }
        let losing = holders.block(lost, block, known);
        // A target that loses no position is a target as it is.
        targets.insert_all(block, known & !losing);
        narrow_block(letters, block, known & losing, ways, pairs, targets)?;
    }
    Ok(())
}

// The same for the targets of one block that lose a position.
fn narrow_block(
    letters: &[Letter],
    block: usize,
    mask: u128,
    ways: (u128, u128),
    pairs: &mut IndexSet<Pair>,
    targets: &mut Places,
) -> Result<(), EqualStop>
    requires few { length pairs.old.keys ≤ max_reach }
    requires block { block < block_count }
    requires pairs { (position : ℕ) → Has mask position
        → block * 128 + position < length pairs.old.keys }
    ensures added { OnOk result (AreAlong letters.now ways
        pairs.old.keys targets.old pairs.new.keys targets.new) }
    ensures whole { OnOk result ((place : ℕ) (pair : PairOf) → IsIn block mask place
        → slice_get pairs.old.keys place ≡ Some pair
        → IsTarget letters.now ways (narrowed ways pair)
        → HasPair pairs.new.keys targets.new (narrowed ways pair)) }
    ensures too_many { result ≡ Err Reach
        → AreTooMany pairs.old.keys (IsTarget letters.now ways) }
{
    let mut rest = mask;
    'places: while rest != 0 {
        let place = block * 128 + lowest(rest) as usize;
        let Some(to) = pairs.get_index(place).copied() else {
            unreachable!()
        };
        admit(letters, ways, to.narrowed(ways), pairs, targets)?;
        rest = without_lowest(rest);
    }
    Ok(())
}
