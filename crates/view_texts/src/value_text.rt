//! The text of an answer.
ghost use Rattle.std.specs.Option.{option_copied};
ghost use Rattle.std.specs.Prelude.{◌≡◌, ◌++◌, OnOk};
ghost use Rattle.view_texts.specs.Values.{answer_text, value_text};

use crate::notation::Notation;
use crate::record_text::push_record;
use crate::scalar_text::push_scalar;
use crate::table_text::push_table;
use std::alloc::AllocError;
use value_ops::Value;

/// Appends the text of a value, or of none. Its numbers have this many digits after the point.
pub fn push_answer(
    notation: Notation,
    digits: u8,
    answer: Option<&Value>,
    text: &mut Vec<u8>,
) -> Result<(), AllocError>
    ensures { OnOk result (text.new.items
        ≡ text.old.items ++ answer_text notation digits (option_copied answer.entry)) }
{
    match answer {
        Some(value) => push_value(notation, digits, value, text),
        None => text.extend_from_slice(notation.none_text().as_bytes()),
    }
}

pub(crate) fn push_value(
    notation: Notation,
    digits: u8,
    value: &Value,
    text: &mut Vec<u8>,
) -> Result<(), AllocError>
    ensures { OnOk result (
        text.new.items ≡ text.old.items ++ value_text notation digits value.now) }
{
    match value {
        Value::Scalar(scalar) => push_scalar(notation, digits, *scalar, text),
        Value::Rec(parts) => push_record(notation, digits, parts, text),
        Value::Table(table) => push_table(notation, digits, table, text),
    }
}
