//! The stream of a file as a text.
ghost use Rattle.std.specs.Prelude.{◌≡◌, ◌++◌, OnOk};
ghost use Rattle.query_text.specs.StreamTexts.{column_text, columns_text, kind_text, mode_text};
ghost use Rattle.query_text.specs.StreamTexts.{stream_text};

use crate::pieces::{close, comma, open, write_number};
use item_schema::{Column, Kind, Schema};
use std::alloc::AllocError;

/// Appends the line of the stream.
pub(crate) fn write_stream(schema: &Schema, text: &mut Vec<u8>) -> Result<(), AllocError>
    ensures { OnOk result (text.new.items ≡ text.old.items ++ stream_text schema.now) }
{
    open(b"stream", text)?;
    write_mode(schema, text)?;
    write_columns(schema.columns(), text)?;
    text.extend_from_slice(b")\n")
}

fn write_mode(schema: &Schema, text: &mut Vec<u8>) -> Result<(), AllocError>
    ensures { OnOk result (text.new.items ≡ text.old.items ++ mode_text schema.now.has_header) }
{
    if schema.has_header() {
        text.extend_from_slice(b"header")
    } else {
        text.extend_from_slice(b"plain")
    }
}

fn write_columns(columns: &[Column], text: &mut Vec<u8>) -> Result<(), AllocError>
    ensures { OnOk result (text.new.items ≡ text.old.items ++ columns_text columns.now) }
{
    'columns: for column in columns {
        comma(text)?;
        write_column(column, text)?;
    }
    Ok(())
}

fn write_column(column: &Column, text: &mut Vec<u8>) -> Result<(), AllocError>
    ensures { OnOk result (text.new.items ≡ text.old.items ++ column_text column.now) }
{
    open(b"col", text)?;
    text.extend_from_slice(column.name.as_slice())?;
    comma(text)?;
    write_kind(column.kind, text)?;
    close(text)
}

// Columns of the last two kinds are not read from lines, and no file declares one.
fn write_kind(kind: Kind, text: &mut Vec<u8>) -> Result<(), AllocError>
    ensures { OnOk result (text.new.items ≡ text.old.items ++ kind_text kind) }
{
    match kind {
        Kind::Int | Kind::Number | Kind::Table => text.extend_from_slice(b"int"),
        Kind::Text => text.extend_from_slice(b"text"),
        Kind::Fixed(digits) => {
            open(b"fixed", text)?;
            write_number(i64::from(digits), text)?;
            close(text)
        }
    }
}
