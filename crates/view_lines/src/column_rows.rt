//! Rows in columns, for a person.
ghost use Rattle.std.specs.Option.{option_copied};
ghost use Rattle.std.specs.Prelude.{◌≡◌, ◌++◌, ◌∷◌, [], OnOk};
ghost use Rattle.view_lines.specs.Columns.{answer_cell, dim_off, dim_on, item_cells, item_line};
ghost use Rattle.view_lines.specs.Columns.{last_line, name_cells, name_line, skipped_line, wider};
ghost use Rattle.view_lines.specs.Rows.{line_of};

use crate::Form;
use crate::cell_rows::{as_read, push_skip};
use crate::shown_cell::ShownCell;
use crate::widths::{others_of, push_filled};
use item_schema::{Column, Kind};
use line_reader::Skip;
use std::alloc::AllocError;
use value_ops::{Field, Value};
use view_texts::{Spelling, push_spelled};

/// Appends the names, and their widths to those after the row.
pub(crate) fn push_names(
    columns: &[Column],
    widths: &[usize],
    cell: &mut ShownCell,
    after: &mut Vec<usize>,
    text: &mut Vec<u8>,
) -> Result<(), AllocError>
    ensures after { OnOk result (
        after.new.items ≡ after.old.items ++ wider widths.now (name_cells columns.now)) }
    ensures text { OnOk result (text.new.items ≡ text.old.items
        ++ name_line columns.now (wider widths.now (name_cells columns.now))) }
{
    match columns {
        [column, columns @ ..] => {
            cell.set_bytes(column.name.as_slice())?;
            push_filled(column.kind, widths, cell.as_slice(), after, text)?;
            text.extend_from_slice(b"  ")?;
            push_names(columns, others_of(widths), cell, after, text)
        }
        [] => {
            push_filled(Kind::Number, widths, b"answer", after, text)?;
            text.extend_from_slice(b"\n")
        }
    }
}

/// Appends an item with its answer, and their widths to those after the row.
pub(crate) fn push_item(
    digits: u8,
    columns: &[Column],
    fields: &[Field],
    answer: Option<&Value>,
    widths: &[usize],
    cell: &mut ShownCell,
    after: &mut Vec<usize>,
    text: &mut Vec<u8>,
) -> Result<(), AllocError>
    ensures after { let cells = item_cells digits columns.now fields.now
        (option_copied answer.entry) in
        OnOk result (after.new.items ≡ after.old.items ++ wider widths.now cells) }
    ensures text { let value = option_copied answer.entry in
        let cells = item_cells digits columns.now fields.now value in
        OnOk result (text.new.items ≡ text.old.items
        ++ item_line digits columns.now fields.now value (wider widths.now cells)) }
{
    match (columns, fields) {
        ([column, columns @ ..], [field, fields @ ..]) => {
            cell.set_field(column.kind, field)?;
            push_filled(column.kind, widths, cell.as_slice(), after, text)?;
            text.extend_from_slice(b"  ")?;
            push_item(
                digits,
                columns,
                fields,
                answer,
                others_of(widths),
                cell,
                after,
                text,
            )
        }
        _ => push_last(digits, answer, widths, cell, after, text),
    }
}

fn push_last(
    digits: u8,
    answer: Option<&Value>,
    widths: &[usize],
    cell: &mut ShownCell,
    after: &mut Vec<usize>,
    text: &mut Vec<u8>,
) -> Result<(), AllocError>
    ensures after { OnOk result (after.new.items ≡ after.old.items
        ++ wider widths.now (answer_cell digits (option_copied answer.entry) ∷ [])) }
    ensures text { let cell = answer_cell digits (option_copied answer.entry) in
        OnOk result (text.new.items
        ≡ text.old.items ++ last_line (wider widths.now (cell ∷ [])) cell) }
{
    cell.set_answer(digits, answer)?;
    push_filled(Kind::Number, widths, cell.as_slice(), after, text)?;
    text.extend_from_slice(b"\n")
}

/// Appends a line that is skipped.
pub(crate) fn push_skipped(
    form: Form,
    line: Option<&[u8]>,
    skip: Skip,
    text: &mut Vec<u8>,
) -> Result<(), AllocError>
    ensures { OnOk result (text.new.items
        ≡ text.old.items ++ skipped_line form (line_of (option_copied line.entry)) skip) }
{
    push_dim_on(form, text)?;
    push_spelled(Spelling::Terminal, as_read(line), text)?;
    text.extend_from_slice(b"  ")?;
    push_skip(skip, text)?;
    push_dim_off(form, text)?;
    text.extend_from_slice(b"\n")
}

fn push_dim_on(form: Form, text: &mut Vec<u8>) -> Result<(), AllocError>
    ensures { OnOk result (text.new.items ≡ text.old.items ++ dim_on form) }
{
    match form {
        Form::Dimmed => text.extend_from_slice(b"\x1b[2m"),
        _ => Ok(()),
    }
}

fn push_dim_off(form: Form, text: &mut Vec<u8>) -> Result<(), AllocError>
    ensures { OnOk result (text.new.items ≡ text.old.items ++ dim_off form) }
{
    match form {
        Form::Dimmed => text.extend_from_slice(b"\x1b[0m"),
        _ => Ok(()),
    }
}
