//! Whether values that wait fit.
ghost use Rattle.std.specs.Prelude.{◌↔◌, IsTrue};
ghost use Rattle.eval_snapshot.specs.Fits.{FitsWaiting, FitWaiting};
ghost use Rattle.dump_fits.specs.Telling.{Tells};

use indexmap::IndexSet;
use runner_snapshot::Entries;
use std::alloc::{AllocError, Global};
use value_ops::{Value, ValueType};

/// There are no more than places, and each fits and has an inner start of its own.
pub(crate) fn fit_waiting(
    alloc: Global,
    ty: ValueType,
    places: u32,
    position: u64,
    entries: &Entries,
) -> Result<bool, AllocError>
    ensures { Tells result (FitWaiting ty places position entries.now) }
{
    if entries.len() > places as usize {
        return Ok(false);
    }
    let mut inners = IndexSet::new(alloc);
    'entries: for i in 0..entries.len() {
        let (inner, outer, value) = entries.get(i);
        if !inners.insert(inner)? {
            return Ok(false);
        }
        if !fits_waiting(ty, position, inner, outer, value) {
            return Ok(false);
        }
    }
    Ok(true)
}

fn fits_waiting(ty: ValueType, position: u64, inner: u64, outer: u64, value: &Value) -> bool
    ensures { IsTrue result ↔ FitsWaiting ty position
        (record { inner = inner; outer = outer; value = value.now }) }
{
    outer <= inner && inner <= position && value.ty() == ty
}
