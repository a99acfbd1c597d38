//! The line of an item.
ghost use Rattle.std.specs.Prelude.{◌≡◌, ◌++◌, IfOk, IsTrue, OnOk};
ghost use Rattle.std.specs.List.{list_all};
ghost use Rattle.item_schema.specs.Layout.{has_digits};
ghost use Rattle.item_lines.specs.Lines.{line_of, shown_line};

use crate::field_text::push_field;
use crate::plain_lines::is_shown;
use item_schema::{Column, Item, Schema};
use language_base::Bytes;
use std::alloc::{AllocError, Global};
use value_ops::Field;

/// The line of the item, if such a line is shown.
pub fn shown_line(alloc: Global, schema: &Schema, item: &Item) -> Result<Option<Bytes>, AllocError>
    ensures { IfOk result (λ found. found ≡ shown_line schema.now.columns item.now) }
{
    let line = line_of(alloc, schema.columns(), item.fields())?;
    if is_shown(line.as_slice()) {
        return Ok(Some(line));
    }
    Ok(None)
}

fn line_of(alloc: Global, columns: &[Column], fields: &[Field]) -> Result<Bytes, AllocError>
    requires { IsTrue (list_all (λ c. has_digits c.kind) columns.now) }
    ensures { IfOk result (λ line. line ≡ line_of columns.now fields.now) }
{
    let mut line = Vec::new(alloc);
    push_fields(columns, fields, &mut line)?;
    Ok(Bytes::from_vec(line))
}

// Appends the texts of the fields, with commas between them.
fn push_fields(columns: &[Column], fields: &[Field], line: &mut Vec<u8>) -> Result<(), AllocError>
    requires { IsTrue (list_all (λ c. has_digits c.kind) columns.now) }
    ensures { OnOk result (line.new.items ≡ line.old.items ++ line_of columns.now fields.now) }
{
    match (columns, fields) {
        ([column], [field]) => push_field(column.kind, field, line),
        ([column, columns @ ..], [field, fields @ ..]) => {
            push_field(column.kind, field, line)?;
            line.extend_from_slice(b",")?;
            push_fields(columns, fields, line)
        }
        _ => Ok(()),
    }
}
