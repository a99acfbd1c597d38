//! For each predicate, the cells whose items meet it.
ghost use Rattle.std.specs.Prelude.{◌≡◌, ◌≤◌, map, IfOk};
ghost use Rattle.language_base.specs.Limits.{max_cells};
ghost use Rattle.predicates.specs.Plain.{plain_of};
ghost use Rattle.predicate_cells.specs.Ranks.{cells_in};
ghost use Rattle.predicate_cells.specs.Samples.{mask_in};

use crate::CellSet;
use crate::classes::Classes;
use crate::mask::truths_of;
use predicates::Pred;
use std::alloc::{AllocError, Global};

/// For each predicate, the cells whose samples meet it.
pub(crate) fn masks_of(
    alloc: Global,
    columns: &[Classes],
    preds: &[Pred],
) -> Result<Vec<CellSet>, AllocError>
    requires { cells_in columns.now ≤ max_cells }
    ensures { IfOk result (λ masks.
        masks.items ≡ map (mask_in columns.now) (map plain_of preds.now)) }
{
    let mut masks = Vec::with_capacity(alloc, preds.len())?;
    for pred in preds {
        let truths = truths_of(alloc, columns, pred)?;
        masks.push(CellSet::from_flags(truths))?;
    }
    Ok(masks)
}

pub(crate) fn masks_like(alloc: Global, masks: &[CellSet]) -> Result<Vec<CellSet>, AllocError>
    ensures { IfOk result (λ copies. copies.items ≡ masks.now) }
{
    let mut copies = Vec::with_capacity(alloc, masks.len())?;
    for mask in masks {
        copies.push(mask.try_copy(alloc)?)?;
    }
    Ok(copies)
}
