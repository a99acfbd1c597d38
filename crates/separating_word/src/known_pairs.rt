//! Pairs of sets of positions, one set of each automaton, that the search has reached.
ghost use Rattle.std.specs.Prelude.{◌≡◌, IfOk, OnOk, false};
ghost use Rattle.std.specs.List.{Contains};
ghost use Rattle.separating_word.specs.Known.{IsPut};

use indexmap::IndexSet;
use std::alloc::AllocError;

/// Adds the masks to those that are known, and gives whether they are new.
pub(crate) fn note(
    known: &mut IndexSet<(u128, u128)>,
    masks: (u128, u128),
) -> Result<bool, AllocError>
    ensures put { OnOk result (IsPut known.old.keys known.new.keys masks) }
    ensures old { IfOk result (λ new. new ≡ false → Contains known.old.keys masks) }
{
    Ok(known.insert(masks)?)
}
