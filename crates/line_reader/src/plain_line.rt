//! Lines that are cut at their commas alone.
ghost use Rattle.std.specs.Prelude.{◌≡◌, [], ◌∷◌, IfErr, IfOk, List, MatchOption, Ok, count_by};
ghost use Rattle.std.specs.Prelude.{false, length, true};
ghost use Rattle.std.specs.List.{list_any, slice_split};
ghost use Rattle.std.specs.Option.{option_copied};
ghost use Rattle.line_reader.specs.CutLines.{is_comma};
ghost use Rattle.line_reader.specs.LineParts.{is_special, split_of};
ghost use Rattle.line_reader.specs.Reading.{IsStopOf, fields_of};

use crate::ItemStop;
use crate::cut::cut_at;
use crate::field::{push_field, read_field};
use item_schema::{Column, Item, Schema};
use std::alloc::Global;
use value_ops::Field;

/// How many commas the line has, if it has no quote, no CR and no LF.
pub(crate) fn plain_commas(line: &[u8]) -> Option<usize>
    ensures { MatchOption result (list_any is_special line.now ≡ true) (λ commas.
        (list_any is_special line.now ≡ false) × (commas ≡ count_by is_comma line.now)) }
{
    let mut commas = 0;
    for byte in line {
        match byte {
            b'"' | b'\r' | b'\n' => return None,
            b',' => commas += 1,
            _ => {}
        }
    }
    Some(commas)
}

/// The item of what stands between the commas, a text for each column.
pub(crate) fn plain_item(
    alloc: Global,
    schema: &Schema,
    line: &[u8],
) -> Result<Item<'static>, ItemStop>
    requires { length (slice_split is_comma line.now) ≡ length schema.now.columns }
    ensures item { IfOk result (λ item.
        fields_of 1 schema.now.columns (slice_split is_comma line.now) ≡ Ok item) }
    ensures stopped { IfErr result
        (IsStopOf (fields_of 1 schema.now.columns (slice_split is_comma line.now))) }
{
    match schema.columns() {
        [column] => whole_item(alloc, column, line),
        _ => Ok(Item::from_fields(plain_fields(alloc, schema, line)?)),
    }
}

// The item of a line that is the text of the only column.
fn whole_item(alloc: Global, column: &Column, line: &[u8]) -> Result<Item<'static>, ItemStop>
    requires { length (slice_split is_comma line.now) ≡ 1 }
    ensures item { IfOk result (λ item.
        fields_of 1 (column.now ∷ []) (slice_split is_comma line.now) ≡ Ok item) }
    ensures stopped { IfErr result
        (IsStopOf (fields_of 1 (column.now ∷ []) (slice_split is_comma line.now))) }
{
    let field = read_field(alloc, column.kind, 1, line)?;
    Ok(Item::from_field(field))
}

// The fields of the columns, from left to right.
fn plain_fields(alloc: Global, schema: &Schema, line: &[u8]) -> Result<Vec<Field>, ItemStop>
    requires { length (slice_split is_comma line.now) ≡ length schema.now.columns }
    ensures fields { IfOk result (λ fields.
        fields_of 1 schema.now.columns (slice_split is_comma line.now) ≡ Ok fields.items) }
    ensures stopped { IfErr result
        (IsStopOf (fields_of 1 schema.now.columns (slice_split is_comma line.now))) }
{
    let mut fields = Vec::with_capacity(alloc, schema.columns().len())?;
    let mut rest = Some(line);
    'texts: while let Some(bytes) = rest {
        let (text, after) = plain_text(bytes);
        push_field(alloc, schema, &mut fields, text)?;
        rest = after;
    }
    Ok(fields)
}

// What stands before the first comma, and what stands after it if there is one.
#[tactic(auto, using(crate::proofs::PlainLines::texts_between_commas))]
fn plain_text(bytes: &[u8]) -> (&[u8], Option<&[u8]>)
    ensures { slice_split is_comma bytes.now ≡ result.0.now ∷ split_of (option_copied result.1) }
{
    cut_at(b',', bytes)
}
