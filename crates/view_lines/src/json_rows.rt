//! Rows as objects of JSON.
ghost use Rattle.std.specs.Option.{option_copied};
ghost use Rattle.std.specs.Prelude.{◌≡◌, ◌++◌, OnOk};
ghost use Rattle.view_lines.specs.JsonRows.{item_object, line_member, members, skipped_object};
ghost use Rattle.view_lines.specs.Rows.{line_of};

use item_schema::Column;
use line_reader::Skip;
use std::alloc::AllocError;
use value_ops::{Field, Value};
use view_texts::{Notation, push_answer, push_field, push_json_string, push_reason};

/// Appends the object of an item with its answer.
pub(crate) fn push_item(
    digits: u8,
    columns: &[Column],
    fields: &[Field],
    answer: Option<&Value>,
    text: &mut Vec<u8>,
) -> Result<(), AllocError>
    ensures { OnOk result (text.new.items ≡ text.old.items
        ++ item_object digits columns.now fields.now (option_copied answer.entry)) }
{
    text.extend_from_slice(b"{")?;
    push_members(columns, fields, text)?;
    text.extend_from_slice(b"\"answer\":")?;
    push_answer(Notation::Json, digits, answer, text)?;
    text.extend_from_slice(b"}\n")
}

// Appends the fields under the names of their columns, each with a comma after it.
fn push_members(columns: &[Column], fields: &[Field], text: &mut Vec<u8>) -> Result<(), AllocError>
    ensures { OnOk result (
        text.new.items ≡ text.old.items ++ members columns.now fields.now) }
{
    match (columns, fields) {
        ([column, columns @ ..], [field, fields @ ..]) => {
            push_json_string(column.name.as_slice(), text)?;
            text.extend_from_slice(b":")?;
            push_field(Notation::Json, column.kind, field, text)?;
            text.extend_from_slice(b",")?;
            push_members(columns, fields, text)
        }
        _ => Ok(()),
    }
}

/// Appends the object of a line that is skipped.
pub(crate) fn push_skipped(
    line: Option<&[u8]>,
    skip: Skip,
    text: &mut Vec<u8>,
) -> Result<(), AllocError>
    ensures { OnOk result (text.new.items
        ≡ text.old.items ++ skipped_object (line_of (option_copied line.entry)) skip) }
{
    text.extend_from_slice(b"{")?;
    push_line(line, text)?;
    text.extend_from_slice(b"\"skipped\":\"")?;
    push_reason(skip, text)?;
    text.extend_from_slice(b"\"}\n")
}

fn push_line(line: Option<&[u8]>, text: &mut Vec<u8>) -> Result<(), AllocError>
    ensures { OnOk result (
        text.new.items ≡ text.old.items ++ line_member (line_of (option_copied line.entry))) }
{
    let Some(line) = line else {
        return Ok(());
    };
    text.extend_from_slice(b"\"line\":")?;
    push_json_string(line, text)?;
    text.extend_from_slice(b",")
}
