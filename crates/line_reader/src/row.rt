//! The row that `csv` reads of a line.
ghost use Rattle.std.specs.Prelude.{◌≡◌, ◌+◌, ◌<◌, ◌∷◌, None, Ok, Some, IfErr, IfOk, drop, false};
ghost use Rattle.std.specs.Prelude.{length, option_map, true};
ghost use Rattle.csv.specs.Records as csv;
ghost use Rattle.line_reader.specs.Reading.{IsStopOf, fields_of, record_of};

use crate::ItemStop;
use crate::field::push_field;
use csv::{ByteRecord, Error, ReaderBuilder};
use item_schema::Schema;
use std::alloc::{AllocError, Global};
use value_ops::Field;

/// The first row of the line, if it has one.
pub(crate) fn read_row(alloc: Global, line: &[u8]) -> Result<Option<ByteRecord>, AllocError>
    ensures { IfOk result (λ row. option_map csv.fields_of row ≡ record_of line.now) }
{
    first_row(alloc, line).map_err(|_| AllocError)
}

fn first_row(alloc: Global, line: &[u8]) -> Result<Option<ByteRecord>, Error>
    ensures { IfOk result (λ row. option_map csv.fields_of row ≡ record_of line.now) }
{
    let mut row = ByteRecord::new(alloc);
    let found = read_first(alloc, line, &mut row)?;
    Ok(found.then_some(row))
}

// The first row of the line into `row`, and whether it has one.
fn read_first(alloc: Global, line: &[u8], row: &mut ByteRecord) -> Result<bool, Error>
    ensures row { IfOk result (λ found.
        found ≡ true → record_of line.now ≡ Some (csv.fields_of row.new)) }
    ensures none { IfOk result (λ found. found ≡ false → record_of line.now ≡ None) }
{
    let mut reader = ReaderBuilder::new()
        .has_headers(false)
        .flexible(true)
        .from_reader(alloc, line);
    reader.read_byte_record(row)
}

/// The fields of the columns, from left to right.
pub(crate) fn row_fields(
    alloc: Global,
    schema: &Schema,
    row: &ByteRecord,
) -> Result<Vec<Field>, ItemStop>
    requires { length (csv.fields_of row.now) ≡ length schema.now.columns }
    ensures fields { IfOk result (λ fields.
        fields_of 1 schema.now.columns (csv.fields_of row.now) ≡ Ok fields.items) }
    ensures stopped { IfErr result
        (IsStopOf (fields_of 1 schema.now.columns (csv.fields_of row.now))) }
{
    let mut fields = Vec::with_capacity(alloc, row.len())?;
    for index in 0..row.len() {
        push_field(alloc, schema, &mut fields, text_at(row, index))?;
    }
    Ok(fields)
}

// What stands in the row at this place.
fn text_at(row: &ByteRecord, index: usize) -> &[u8]
    requires { index < length (csv.fields_of row.now) }
    ensures { drop index (csv.fields_of row.now)
        ≡ result.now ∷ drop (index + 1) (csv.fields_of row.now) }
{
    row.get(index).unwrap()
}
