//! Lines that are the number of the only column.
ghost use Rattle.std.specs.Prelude.{◌≡◌, [], ◌∷◌, IfSome, Ok};
ghost use Rattle.line_reader.specs.Reading.{item_of};

use crate::Cause;
use crate::number::{fixed_field, int_field};
use item_schema::{Column, Kind, Schema};
use value_ops::Field;

/// The number of such a line, which is read in one pass. It comes bare, since a field takes many
/// registers more.
#[inline]
pub(crate) fn only_number(schema: &Schema, line: &[u8]) -> Option<i64>
    ensures { IfSome result (λ number.
        item_of schema.now.columns line.now ≡ Ok (Field.Int number ∷ [])) }
{
    match schema.columns() {
        [column] => number_in(column, line),
        _ => None,
    }
}

// The number that the line writes in this column, if it writes one.
#[inline]
fn number_in(column: &Column, line: &[u8]) -> Option<i64>
    ensures { IfSome result (λ number.
        item_of (column.now ∷ []) line.now ≡ Ok (Field.Int number ∷ [])) }
{
    match column.kind {
        Kind::Int => number_of(int_field(line)),
        Kind::Fixed(places) => number_of(fixed_field(places, line)),
        Kind::Text | Kind::Number | Kind::Table => None,
    }
}

// The number of the field that was read.
#[inline(always)]
fn number_of(read: Result<Field, Cause>) -> Option<i64>
    ensures { IfSome result (λ number. read ≡ Ok (Field.Int number)) }
{
    match read {
        Ok(Field::Int(number)) => Some(number),
        _ => None,
    }
}
