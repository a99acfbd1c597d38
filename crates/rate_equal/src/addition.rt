//! Adding a pair of states to those that were reached.
ghost use Rattle.std.specs.Prelude.{◌≡◌, ◌≤◌, Err, OnOk, length};
ghost use Rattle.rate_equal.specs.declared.stop.EqualStop.TheVariants.{Reach};
ghost use Rattle.rate_equal.specs.Added.{AreAdded, AreTooMany, HasPair};
ghost use Rattle.rate_equal.specs.Reach.{max_reach};

use crate::pair::Pair;
use crate::places::Places;
use crate::stop::EqualStop;
use indexmap::IndexSet;

/// The most states, or pairs of states, that words may lead to.
const MAX_REACH: usize = 4096;

/// Appends the pair if it is new, and adds its place to the set.
pub(crate) fn add(
    pair: Pair,
    pairs: &mut IndexSet<Pair>,
    places: &mut Places,
) -> Result<(), EqualStop>
    ensures added { OnOk result (AreAdded (λ other. pair ≡ other) (λ other. pair ≡ other)
        pairs.old.keys places.old pairs.new.keys places.new) }
    ensures there { OnOk result (HasPair pairs.new.keys places.new pair) }
    ensures too_many { result ≡ Err Reach → length pairs.old.keys ≤ max_reach
        → AreTooMany pairs.old.keys (λ other. pair ≡ other) }
{
    let (place, _added) = pairs.insert_full(pair)?;
    if pairs.len() > MAX_REACH {
        return Err(EqualStop::Reach);
    }
    places.insert(place);
    Ok(())
}
