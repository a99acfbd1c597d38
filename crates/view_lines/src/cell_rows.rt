//! Rows as cells with a delimiter between them.
ghost use Rattle.std.specs.List.{flat_map};
ghost use Rattle.std.specs.Option.{option_copied};
ghost use Rattle.std.specs.Prelude.{◌≡◌, ◌++◌, [], OnOk};
ghost use Rattle.view_lines.specs.CellRows.{field_cells, front_cell, item_cells, last_cell};
ghost use Rattle.view_lines.specs.CellRows.{line_cells, names_cells, skipped_cells, skipped_text};
ghost use Rattle.view_lines.specs.Rows.{as_read, line_of};

use item_schema::Column;
use line_reader::Skip;
use std::alloc::AllocError;
use value_ops::{Field, Value};
use view_texts::{Delimiter, Notation, push_answer, push_cell, push_field, push_reason};

/// Appends the row of the names.
pub(crate) fn push_names(
    delimiter: Delimiter,
    columns: &[Column],
    text: &mut Vec<u8>,
) -> Result<(), AllocError>
    ensures { OnOk result (
        text.new.items ≡ text.old.items ++ names_cells delimiter columns.now) }
{
    'columns: for column in columns {
        push_front(delimiter, column.name.as_slice(), text)?;
    }
    push_last(delimiter, b"answer", text)
}

/// Appends the row of an item with its answer. The text of one cell at a time lies in `cell`.
pub(crate) fn push_item(
    delimiter: Delimiter,
    digits: u8,
    columns: &[Column],
    fields: &[Field],
    answer: Option<&Value>,
    cell: &mut Vec<u8>,
    text: &mut Vec<u8>,
) -> Result<(), AllocError>
    ensures { OnOk result (text.new.items ≡ text.old.items
        ++ item_cells delimiter digits columns.now fields.now (option_copied answer.entry)) }
{
    push_fields(delimiter, columns, fields, cell, text)?;
    cell.clear();
    push_answer(Notation::Plain, digits, answer, cell)?;
    push_last(delimiter, cell.as_slice(), text)
}

fn push_fields(
    delimiter: Delimiter,
    columns: &[Column],
    fields: &[Field],
    cell: &mut Vec<u8>,
    text: &mut Vec<u8>,
) -> Result<(), AllocError>
    ensures { OnOk result (text.new.items
        ≡ text.old.items ++ field_cells delimiter columns.now fields.now) }
{
    match (columns, fields) {
        ([column, columns @ ..], [field, fields @ ..]) => {
            cell.clear();
            push_field(Notation::Plain, column.kind, field, cell)?;
            push_front(delimiter, cell.as_slice(), text)?;
            push_fields(delimiter, columns, fields, cell, text)
        }
        _ => Ok(()),
    }
}

/// Appends the row of a line that is skipped. The text of one cell at a time lies in `cell`.
pub(crate) fn push_skipped(
    delimiter: Delimiter,
    columns: &[Column],
    line: Option<&[u8]>,
    skip: Skip,
    cell: &mut Vec<u8>,
    text: &mut Vec<u8>,
) -> Result<(), AllocError>
    ensures { OnOk result (text.new.items ≡ text.old.items
        ++ skipped_cells delimiter columns.now (line_of (option_copied line.entry)) skip) }
{
    push_line(delimiter, columns, as_read(line), text)?;
    cell.clear();
    push_skip(skip, cell)?;
    push_last(delimiter, cell.as_slice(), text)
}

/// The bytes of a line, and none of one that is too long.
pub(crate) fn as_read(line: Option<&[u8]>) -> &[u8]
    ensures { result.now ≡ as_read (line_of (option_copied line.entry)) }
{
    match line {
        Some(line) => line,
        None => &[],
    }
}

// Appends a line in the cell of the first column, and empty cells for the others.
fn push_line(
    delimiter: Delimiter,
    columns: &[Column],
    line: &[u8],
    text: &mut Vec<u8>,
) -> Result<(), AllocError>
    ensures { OnOk result (
        text.new.items ≡ text.old.items ++ line_cells delimiter columns.now line.now) }
{
    let [_, others @ ..] = columns else {
        return Ok(());
    };
    push_front(delimiter, line, text)?;
    push_empty(delimiter, others, text)
}

fn push_empty(
    delimiter: Delimiter,
    columns: &[Column],
    text: &mut Vec<u8>,
) -> Result<(), AllocError>
    ensures { OnOk result (text.new.items
        ≡ text.old.items ++ flat_map (λ other. front_cell delimiter []) columns.now) }
{
    'columns: for _ in columns {
        push_front(delimiter, &[], text)?;
    }
    Ok(())
}

/// Appends why a line is skipped.
pub(crate) fn push_skip(skip: Skip, text: &mut Vec<u8>) -> Result<(), AllocError>
    ensures { OnOk result (text.new.items ≡ text.old.items ++ skipped_text skip) }
{
    text.extend_from_slice(b"skipped ")?;
    push_reason(skip, text)
}

// Appends a cell that others follow.
fn push_front(delimiter: Delimiter, cell: &[u8], text: &mut Vec<u8>) -> Result<(), AllocError>
    ensures { OnOk result (text.new.items ≡ text.old.items ++ front_cell delimiter cell.now) }
{
    push_cell(delimiter, cell, text)?;
    text.extend_from_slice(&[delimiter.byte()])
}

// Appends the last cell of a row.
fn push_last(delimiter: Delimiter, cell: &[u8], text: &mut Vec<u8>) -> Result<(), AllocError>
    ensures { OnOk result (text.new.items ≡ text.old.items ++ last_cell delimiter cell.now) }
{
    push_cell(delimiter, cell, text)?;
    text.extend_from_slice(b"\n")
}
