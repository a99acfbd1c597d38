//! A pair of states that may be a target.
ghost use Rattle.std.specs.Prelude.{◌≡◌, ◌≤◌, Err, MatchBool, OnOk, length};
ghost use Rattle.rate_equal.specs.declared.stop.EqualStop.TheVariants.{Reach};
ghost use Rattle.rate_equal.specs.Added.{AreTooMany, HasPair};
ghost use Rattle.rate_equal.specs.Narrowed.{AreStatesWithin};
ghost use Rattle.rate_equal.specs.Reach.{max_reach};
ghost use Rattle.rate_equal.specs.Targets.{AreAlong, IsTarget};

use crate::addition::add;
use crate::letters::Letter;
use crate::pair::Pair;
use crate::places::Places;
use crate::stop::EqualStop;
use indexmap::IndexSet;

/// Adds the place of the pair to the set if it is known. If it is not, it is appended if it is the
/// target of some letter, and else ignored.
pub(crate) fn admit(
    letters: &[Letter],
    ways: (u128, u128),
    pair: Pair,
    pairs: &mut IndexSet<Pair>,
    targets: &mut Places,
) -> Result<(), EqualStop>
    requires few { length pairs.old.keys ≤ max_reach }
    requires within { AreStatesWithin ways pair }
    ensures added { OnOk result (AreAlong letters.now ways
        pairs.old.keys targets.old pairs.new.keys targets.new) }
    ensures there { OnOk result
        (IsTarget letters.now ways pair → HasPair pairs.new.keys targets.new pair) }
    ensures too_many { result ≡ Err Reach
        → AreTooMany pairs.old.keys (IsTarget letters.now ways) }
{
    if let Some(place) = pairs.get_index_of(&pair) {
        targets.insert(place);
        return Ok(());
    }
    if leads(letters, ways, pair) {
        add(pair, pairs, targets)?;
    }
    Ok(())
}

// Whether the pair is the target of some letter.
fn leads(letters: &[Letter], ways: (u128, u128), pair: Pair) -> bool
    ensures { MatchBool result (IsTarget letters.now ways pair)
        (IsTarget letters.now ways pair → ⊥) }
{
    'letters: for letter in letters {
        if letter.target(ways) == pair {
            return true;
        }
    }
    false
}
