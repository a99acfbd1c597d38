//! Items that meet a predicate of a rate and are not every key's.
ghost use Rattle.std.specs.Prelude.{◌↔◌, IsTrue};
ghost use Rattle.std.specs.List.{Contains};
ghost use Rattle.empty_tables.specs.OwnItems.{AreAskedIn, HasOwnItem, HaveOwnItem};
ghost use Rattle.predicates.specs.Plain.{plain_of};
ghost use Rattle.rate_expr.specs.Plain as rates;

use predicate_cells::Cells;
use predicates::Pred;
use rate_expr::Rate;

/// Whether some item meets a predicate of the rate, and not that of every key's items.
pub(crate) fn have_own_item(cells: &Cells, sync: &Pred, rate: &Rate) -> bool
    requires sync { Contains cells.now.preds (plain_of sync.now) }
    requires rate { AreAskedIn cells.now.preds (rates.plain_of rate.now) }
    ensures { IsTrue result ↔ HaveOwnItem cells.now.layout.columns (plain_of sync.now)
        (rates.plain_of rate.now) }
{
    match rate {
        Rate::Empty => false,
        Rate::One(pred) => has_own_item(cells, sync, pred),
        Rate::Seq(left, right) => {
            have_own_item(cells, sync, left) || have_own_item(cells, sync, right)
        }
        Rate::Alt(left, right) => {
            have_own_item(cells, sync, left) || have_own_item(cells, sync, right)
        }
        Rate::Star(inner) => have_own_item(cells, sync, inner),
    }
}

// Whether some item meets the predicate, and not that of every key's items.
fn has_own_item(cells: &Cells, sync: &Pred, pred: &Pred) -> bool
    requires sync { Contains cells.now.preds (plain_of sync.now) }
    requires pred { Contains cells.now.preds (plain_of pred.now) }
    ensures { IsTrue result
        ↔ HasOwnItem cells.now.layout.columns (plain_of sync.now) (plain_of pred.now) }
{
    let met = cells.mask(pred);
    let every = cells.mask(sync);
    'cells: for cell in 0..cells.count() {
        if met.has(cell) && !every.has(cell) {
            return true;
        }
    }
    false
}
