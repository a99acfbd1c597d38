//! The plainest item of a cell.
ghost use Rattle.std.specs.Prelude.{◌<◌, IfOk, OnOk};
ghost use Rattle.item_schema.specs.Items.{IsItemOf};
ghost use Rattle.plain_items.specs.Becoming.{BecomesPlain};
ghost use Rattle.plain_items.specs.Plain.{IsPlain};
ghost use Rattle.predicate_cells.specs.Cells.{IsIn, cell_count};

use crate::nearest_number::bring_near_zero;
use crate::replacement::{Form, put_text};
use item_schema::Item;
use predicate_cells::Cells;
use std::alloc::{AllocError, Global};
use value_ops::{Field, Scalar, Value};

/// The text that is shown if no predicate names one.
const PLAIN_TEXT: &[u8] = b"other";

/// An item of the cell for a person to read: its numbers are as near to zero as they can be, and a
/// text is `other` if the cell allows it.
pub fn plain_item(alloc: Global, cells: &Cells, cell: u32) -> Result<Item<'static>, AllocError>
    requires { cell < cell_count cells.now }
    ensures cell { IfOk result (IsIn cells.now cell) }
    ensures plain { IfOk result (IsPlain cells.now cell) }
{
    let mut item = cells.sample(alloc, cell)?;
    'columns: for column in 0..cells.schema().columns().len() {
        make_plain(alloc, cells, &mut item, column)?;
    }
    Ok(item)
}

// Puts the plainest field that the cell allows into the column.
fn make_plain(
    alloc: Global,
    cells: &Cells,
    item: &mut Item<'static>,
    column: usize,
) -> Result<(), AllocError>
    requires { IsItemOf cells.now.layout.columns item.old }
    ensures { OnOk result (BecomesPlain cells.now column item.old item.new) }
{
    match item.fields().get(column) {
        Some(&Field::Int(number)) => {
            bring_near_zero(alloc, cells, item, column, Form::Whole, number)
        }
        Some(&Field::Val(Value::Scalar(Scalar::Number(number)))) => {
            bring_near_zero(alloc, cells, item, column, Form::Value, number)
        }
        Some(Field::Text(_)) => {
            put_text(alloc, cells, item, column, PLAIN_TEXT)?;
            Ok(())
        }
        Some(Field::Val(Value::Scalar(Scalar::Overflow))) => Ok(()),
        Some(Field::Val(Value::Scalar(Scalar::DivZero))) => Ok(()),
        Some(Field::Val(Value::Rec(_))) => Ok(()),
        Some(Field::Val(Value::Table(_))) => Ok(()),
        None => Ok(()),
    }
}
