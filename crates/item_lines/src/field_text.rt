//! The text of a field.
ghost use Rattle.std.specs.Prelude.{◌≡◌, ◌++◌, IsTrue, OnOk};
ghost use Rattle.item_schema.specs.Layout.{has_digits};
ghost use Rattle.report_writer.specs.Texts.{value_text};
ghost use Rattle.item_lines.specs.Lines.{field_text, number_text};

use crate::number_text::{push_fixed, push_whole};
use crate::quotes::push_text;
use item_schema::Kind;
use report_writer::push_answer;
use std::alloc::AllocError;
use value_ops::{Field, Value};

/// Appends the text of the field in a column of this kind.
pub(crate) fn push_field(kind: Kind, field: &Field, line: &mut Vec<u8>) -> Result<(), AllocError>
    requires { IsTrue (has_digits kind) }
    ensures { OnOk result (line.new.items ≡ line.old.items ++ field_text kind field.now) }
{
    match field {
        Field::Int(number) => push_number(kind, *number, line),
        Field::Text(text) => push_text(text.as_slice(), line),
        Field::Val(value) => push_value(value, line),
    }
}

fn push_number(kind: Kind, number: i64, line: &mut Vec<u8>) -> Result<(), AllocError>
    requires { IsTrue (has_digits kind) }
    ensures { OnOk result (line.new.items ≡ line.old.items ++ number_text kind number) }
{
    match kind {
        Kind::Fixed(places) => push_fixed(places, number, line),
        _ => push_whole(number, line),
    }
}

fn push_value(value: &Value, line: &mut Vec<u8>) -> Result<(), AllocError>
    ensures { OnOk result (line.new.items ≡ line.old.items ++ value_text value.now) }
{
    push_answer(Some(value), line)?;
    // `push_answer` wrote an LF at the end.
    line.pop();
    Ok(())
}
