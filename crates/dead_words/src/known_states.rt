//! Masks that are known.
ghost use Rattle.std.specs.Prelude.{◌≡◌, IfOk, OnOk, false};
ghost use Rattle.std.specs.List.{Contains};
ghost use Rattle.dead_words.specs.Known.{IsPut};

use indexmap::IndexSet;
use std::alloc::AllocError;

/// Adds the mask to those that are known, and gives whether it is new.
pub(crate) fn note(known: &mut IndexSet<u128>, mask: u128) -> Result<bool, AllocError>
    ensures put { OnOk result (IsPut known.old.keys known.new.keys mask) }
    ensures old { IfOk result (λ new. new ≡ false → Contains known.old.keys mask) }
{
    Ok(known.insert(mask)?)
}
