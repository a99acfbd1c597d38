//! The text of a field.
ghost use Rattle.std.specs.Prelude.{◌≡◌, ◌++◌, OnOk};
ghost use Rattle.view_texts.specs.Values.{bytes_text, digits_of, field_text};

use crate::decimal::push_decimal;
use crate::json_string::push_json_string;
use crate::notation::Notation;
use crate::value_text::push_value;
use item_schema::Kind;
use std::alloc::AllocError;
use value_ops::Field;

/// Appends the text of a field in a column of this kind.
pub fn push_field(
    notation: Notation,
    kind: Kind,
    field: &Field,
    text: &mut Vec<u8>,
) -> Result<(), AllocError>
    ensures { OnOk result (
        text.new.items ≡ text.old.items ++ field_text notation kind field.now) }
{
    match field {
        Field::Int(number) => push_decimal(digits_of(kind), *number, text),
        Field::Text(bytes) => push_bytes(notation, bytes.as_slice(), text),
        Field::Val(value) => push_value(notation, digits_of(kind), value, text),
    }
}

fn digits_of(kind: Kind) -> u8
    ensures { result ≡ digits_of kind }
{
    match kind {
        Kind::Fixed(digits) => digits,
        _ => 0,
    }
}

fn push_bytes(notation: Notation, bytes: &[u8], text: &mut Vec<u8>) -> Result<(), AllocError>
    ensures { OnOk result (text.new.items ≡ text.old.items ++ bytes_text notation bytes.now) }
{
    match notation {
        Notation::Plain => text.extend_from_slice(bytes),
        Notation::Json => push_json_string(bytes, text),
    }
}
