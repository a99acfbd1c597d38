//! Which positions the items of each cell meet.
ghost use Rattle.std.specs.Prelude.{◌≡◌, ◌≤◌, ◌<◌, IfOk, OnOk, length, fold, bit_or};
ghost use Rattle.language_base.specs.Limits.{max_cells};
ghost use Rattle.rate_expr.specs.Sets.{AreSets};
ghost use Rattle.symbolic_nfa.specs.Automata.{AreDecided, AreMet};
ghost use Rattle.symbolic_nfa.specs.Tables.{AddsPositions};

use predicate_cells::{CellSet, Cells};
use rate_expr::Positions;
use std::alloc::{AllocError, Global};

pub(crate) fn met_by_cells(
    alloc: Global,
    positions: &Positions,
    cells: &Cells,
) -> Result<Vec<u128>, AllocError>
    requires { AreDecided positions.now cells.now }
    ensures met { IfOk result (λ met. AreMet positions.now cells.now met.items) }
    ensures sets { OnOk result (AreSets positions.now) }
{
    let mut met = vec![in alloc; 0; cells.count() as usize]?;
    let preds = positions.preds();
    'places: for place in 0..preds.distinct().len() {
        let meeting = cells.mask(preds.distinct().get(place));
        add(&mut met, preds.positions_of(place), meeting);
    }
    Ok(met)
}

// Adds the positions to the masks of the cells in the set.
fn add(masks: &mut [u128], positions: u128, set: &CellSet)
    requires { length masks.old ≤ max_cells }
    ensures { AddsPositions masks.old masks.new positions set.now }
{
    'cells: for cell in 0..masks.len() {
        if set.has(cell as u32) {
            masks[cell] |= positions;
        }
    }
}

pub(crate) fn union_of(masks: &[u128]) -> u128
    ensures { result ≡ fold bit_or 0 masks.now }
{
    masks.iter().fold(0, |union, mask| union | *mask)
}
