//! Lines that are cut into the texts of their fields.
ghost use Rattle.std.specs.Prelude.{◌≡◌, ◌+◌, [], ◌∷◌, IfErr, IfOk, List, MatchOption, Ok, false};
ghost use Rattle.std.specs.Prelude.{length, true};
ghost use Rattle.std.specs.List.{list_any};
ghost use Rattle.std.specs.Option.{option_copied};
ghost use Rattle.csv.specs.Reading.{strip_bom};
ghost use Rattle.line_reader.specs.CutLines.{is_break, texts_in, texts_of};
ghost use Rattle.line_reader.specs.Reading.{IsStopOf, fields_of};

use crate::ItemStop;
use crate::field::{push_field, read_field};
use crate::quote_state::QuoteState;
use crate::text::first_text;
use item_schema::{Column, Item, Schema};
use std::alloc::Global;
use value_ops::Field;

// What `csv` takes off the front of a line.
const BYTE_ORDER_MARK: [u8; 3] = [0xEF, 0xBB, 0xBF];

/// What is left of a line without a byte order mark at its front.
pub(crate) fn without_mark(line: &[u8]) -> &[u8]
    ensures { result.now ≡ strip_bom line.now }
{
    if line.starts_with(&BYTE_ORDER_MARK) {
        &line[3..]
    } else {
        line
    }
}

/// How many commas of the line end a field, if it has no CR and no LF.
pub(crate) fn commas(line: &[u8]) -> Option<usize>
    ensures { MatchOption result (list_any is_break line.now ≡ true) (λ commas.
        (list_any is_break line.now ≡ false) × (commas + 1 ≡ length (texts_in line.now))) }
{
    let mut commas = 0;
    let mut place = QuoteState::Front;
    for byte in line {
        if is_break(*byte) {
            return None;
        }
        if place.ends_field(*byte) {
            commas += 1;
        }
        place = place.after(*byte);
    }
    Some(commas)
}

fn is_break(byte: u8) -> bool
    ensures { result ≡ is_break byte }
{
    byte == b'\r' || byte == b'\n'
}

/// The item of a line with a text for each column.
pub(crate) fn cut_item(
    alloc: Global,
    schema: &Schema,
    line: &[u8],
) -> Result<Item<'static>, ItemStop>
    requires { length (texts_in line.now) ≡ length schema.now.columns }
    ensures item { IfOk result (λ item.
        fields_of 1 schema.now.columns (texts_in line.now) ≡ Ok item) }
    ensures stopped { IfErr result (IsStopOf (fields_of 1 schema.now.columns (texts_in line.now))) }
{
    match schema.columns() {
        [column] => only_item(alloc, column, line),
        _ => Ok(Item::from_fields(cut_fields(alloc, schema, line)?)),
    }
}

// The item of a line that has the text of the only column.
fn only_item(alloc: Global, column: &Column, line: &[u8]) -> Result<Item<'static>, ItemStop>
    requires { length (texts_in line.now) ≡ 1 }
    ensures item { IfOk result (λ item.
        fields_of 1 (column.now ∷ []) (texts_in line.now) ≡ Ok item) }
    ensures stopped { IfErr result (IsStopOf (fields_of 1 (column.now ∷ []) (texts_in line.now))) }
{
    let (text, _) = first_text(alloc, line)?;
    let field = read_field(alloc, column.kind, 1, text.as_slice())?;
    Ok(Item::from_field(field))
}

// The fields of the columns, from left to right.
fn cut_fields(alloc: Global, schema: &Schema, line: &[u8]) -> Result<Vec<Field>, ItemStop>
    requires { length (texts_in line.now) ≡ length schema.now.columns }
    ensures fields { IfOk result (λ fields.
        fields_of 1 schema.now.columns (texts_in line.now) ≡ Ok fields.items) }
    ensures stopped { IfErr result (IsStopOf (fields_of 1 schema.now.columns (texts_in line.now))) }
{
    let mut fields = Vec::with_capacity(alloc, schema.columns().len())?;
    let mut rest = Some(line);
    'texts: while let Some(bytes) = rest {
        let (text, tail) = first_text(alloc, bytes)?;
        push_field(alloc, schema, &mut fields, text.as_slice())?;
        rest = tail;
    }
    Ok(fields)
}
