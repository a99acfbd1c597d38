//! The number of a cell that is nearest to zero.
ghost use Rattle.std.specs.Prelude.{◌≡◌, ◌<◌, ◌^◌, Some, pos, slice_get, OnOk};
ghost use Rattle.item_schema.specs.Items.{IsItemOf};
ghost use Rattle.plain_items.specs.Becoming.{BecomesPlain, StaysWith, number_field, with_sign};

use crate::replacement::{Form, put_number};
use item_schema::Item;
use predicate_cells::Cells;
use std::alloc::{AllocError, Global};

/// Replaces the number in the column by the one nearest to zero.
pub(crate) fn bring_near_zero(
    alloc: Global,
    cells: &Cells,
    item: &mut Item<'static>,
    column: usize,
    form: Form,
    number: i64,
) -> Result<(), AllocError>
    requires item { IsItemOf cells.now.layout.columns item.old }
    requires own { slice_get item.old column ≡ Some (number_field form number) }
    ensures { OnOk result (BecomesPlain cells.now column item.old item.new) }
{
    if put_number(alloc, cells, item, column, form, 0)? {
        return Ok(());
    }
    bisect(alloc, cells, item, column, form, number)
}

// The same if the cell does not allow zero.
fn bisect(
    alloc: Global,
    cells: &Cells,
    item: &mut Item<'static>,
    column: usize,
    form: Form,
    number: i64,
) -> Result<(), AllocError>
    requires item { IsItemOf cells.now.layout.columns item.old }
    requires own { slice_get item.old column ≡ Some (number_field form number) }
    requires zero { StaysWith cells.now item.old column (number_field form (pos 0)) → ⊥ }
    ensures { OnOk result (BecomesPlain cells.now column item.old item.new) }
{
    let mut outside = 0;
    let mut inside = number.unsigned_abs();
    'halves: while inside - outside > 1 {
        let middle = outside + (inside - outside) / 2;
        let nearer = with_sign_of(number, middle);
        if put_number(alloc, cells, item, column, form, nearer)? {
            inside = middle;
        } else {
            outside = middle;
        }
    }
    Ok(())
}

fn with_sign_of(number: i64, magnitude: u64) -> i64
    requires { magnitude < 2 ^ 63 }
    ensures { result ≡ with_sign number magnitude }
{
    if number < 0 {
        -(magnitude as i64)
    } else {
        magnitude as i64
    }
}
