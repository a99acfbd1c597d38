//! Fields as columns read them.
ghost use Rattle.std.specs.Prelude.{◌≡◌, ◌+◌, ◌<◌, ◌∷◌, ℕ, List, Ok, IfErr, IfOk, OnOk, length};
ghost use Rattle.std.specs.Prelude.{vec_len};
ghost use Rattle.line_reader.specs.Reading.{IsStopOf, field_of, in_column, read_on};

use crate::number::{fixed_field, int_field};
use crate::{Cause, ItemStop};
use item_schema::{Kind, Schema};
use std::alloc::Global;
use value_ops::{Bytes, Field};

/// Reads what stands in the column after those of the fields.
pub(crate) fn push_field(
    alloc: Global,
    schema: &Schema,
    fields: &mut Vec<Field>,
    text: &[u8],
) -> Result<(), ItemStop>
    requires { vec_len fields.old < length schema.now.columns }
    ensures pushed { OnOk result ((texts : List (List ℕ)) →
        read_on schema.now.columns fields.old.items (text.now ∷ texts)
        ≡ read_on schema.now.columns fields.new.items texts) }
    ensures count { OnOk result (vec_len fields.new ≡ vec_len fields.old + 1) }
    ensures stopped { IfErr result (λ stop. (texts : List (List ℕ)) →
        IsStopOf (read_on schema.now.columns fields.old.items (text.now ∷ texts)) stop) }
{
    let index = fields.len();
    let kind = schema.columns()[index].kind;
    let field = read_field(alloc, kind, index as u32 + 1, text)?;
    if fields.push(field).is_err() {
        return Err(ItemStop::Memory);
    }
    Ok(())
}

/// The field that a text writes in a column of this kind and number.
#[inline(always)]
pub(crate) fn read_field(
    alloc: Global,
    kind: Kind,
    column: u32,
    text: &[u8],
) -> Result<Field, ItemStop>
    ensures field { IfOk result (λ field. in_column column (field_of kind text.now) ≡ Ok field) }
    ensures stopped { IfErr result (IsStopOf (in_column column (field_of kind text.now))) }
{
    match kind {
        Kind::Int => int_field(text).map_err(|cause| ItemStop::skip(cause, column)),
        Kind::Fixed(places) => {
            fixed_field(places, text).map_err(|cause| ItemStop::skip(cause, column))
        }
        Kind::Text => Ok(Field::Text(Bytes::from_slice(alloc, text)?)),
        Kind::Number | Kind::Table => Err(ItemStop::skip(Cause::Number, column)),
    }
}
