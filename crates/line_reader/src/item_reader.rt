//! The item of a line.
ghost use Rattle.std.specs.Prelude.{◌≡◌, Ok, IfErr, IfOk};
ghost use Rattle.item_schema.specs.Items.{IsItemOf};
ghost use Rattle.line_reader.specs.Reading.{IsStopOf, item_of};

use crate::cut_line::without_mark;
use crate::number_line::only_number;
use crate::parts::parts_of;
use crate::row::{read_row, row_fields};
use crate::{Cause, ItemStop};
use item_schema::{Item, Schema};
use std::alloc::Global;
use value_ops::Field;

/// Reads the fields of a line, with neither its LF nor the CR before that, to an item.
pub fn read_item(alloc: Global, schema: &Schema, line: &[u8]) -> Result<Item<'static>, ItemStop>
    ensures item { IfOk result (λ item. item_of schema.now.columns line.now ≡ Ok item) }
    ensures skipped { IfErr result (IsStopOf (item_of schema.now.columns line.now)) }
    ensures of_schema { IfOk result (IsItemOf schema.now.columns) }
{
    match only_number(schema, line) {
        Some(number) => Ok(Item::from_field(Field::Int(number))),
        None => line_item(alloc, schema, line),
    }
}

// Kept out of the way of numbers, which need none of its fields' room.
#[inline(never)]
fn line_item(alloc: Global, schema: &Schema, line: &[u8]) -> Result<Item<'static>, ItemStop>
    ensures item { IfOk result (λ item. item_of schema.now.columns line.now ≡ Ok item) }
    ensures stopped { IfErr result (IsStopOf (item_of schema.now.columns line.now)) }
{
    let bytes = without_mark(line);
    match parts_of(bytes) {
        None => Ok(Item::from_fields(broken_fields(alloc, schema, line)?)),
        Some(parts) if !bytes.is_empty() && parts.commas() == schema.columns().len() - 1 => {
            parts.item(alloc, schema, bytes)
        }
        Some(_) => Err(ItemStop::skip(Cause::Columns, 0)),
    }
}

// The fields of a line with a CR or an LF, as `csv` gives them.
fn broken_fields(alloc: Global, schema: &Schema, line: &[u8]) -> Result<Vec<Field>, ItemStop>
    ensures fields { IfOk result (λ fields. item_of schema.now.columns line.now ≡ Ok fields.items) }
    ensures stopped { IfErr result (IsStopOf (item_of schema.now.columns line.now)) }
{
    if line.contains(&b'\r') {
        return Err(ItemStop::skip(Cause::Cr, 0));
    }
    let Some(row) = read_row(alloc, line)? else {
        return Err(ItemStop::skip(Cause::Columns, 0));
    };
    if row.len() != schema.columns().len() {
        return Err(ItemStop::skip(Cause::Columns, 0));
    }
    row_fields(alloc, schema, &row)
}
