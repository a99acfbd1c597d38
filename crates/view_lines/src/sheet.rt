//! What writes the rows of a view.
ghost use Rattle.std.specs.Option.{option_copied};
ghost use Rattle.std.specs.Prelude.{◌≡◌, [], ◌∷◌, OnOk};
ghost use Rattle.view_lines.specs.Rows as row;
ghost use Rattle.view_lines.specs.Sheets.{Writes, style_of};

use crate::ruler::Ruler;
use crate::{Form, cell_rows, column_rows, json_rows};
use item_schema::Column;
use line_reader::Skip;
use std::alloc::{AllocError, Global};
use value_ops::{Field, Value};
use view_texts::Delimiter;

/// It writes rows in one form, and knows the widths of columns where the form has any.
#[derive(Drop)]
pub(crate) struct Sheet {
    form: Form,
    digits: u8,
    ruler: Ruler,
    // What is in it does not matter; it is kept for its room.
    cell: Vec<u8>,
}

impl Sheet {
    pub(crate) fn new(alloc: Global, form: Form, digits: u8) -> Sheet
        ensures style { style_of result ≡ record { form = form; digits = digits } }
        ensures widths { result.ruler.widths.items ≡ [] }
    {
        Sheet {
            form,
            digits,
            ruler: Ruler::new(alloc),
            cell: Vec::new(alloc),
        }
    }

    /// Appends the names of the columns.
    pub(crate) fn push_names(
        &mut self,
        columns: &[Column],
        text: &mut Vec<u8>,
    ) -> Result<(), AllocError>
        ensures { OnOk result (Writes columns.now (row.names ∷ []) self.old self.new
            text.old.items text.new.items) }
    {
        match self.form {
            Form::Json => Ok(()),
            Form::Csv => cell_rows::push_names(Delimiter::Comma, columns, text),
            Form::Tsv => cell_rows::push_names(Delimiter::Tab, columns, text),
            Form::Columns | Form::Dimmed => self.ruler.push_names(columns, text),
        }
    }

    /// Appends an item with its answer.
    pub(crate) fn push_item(
        &mut self,
        columns: &[Column],
        fields: &[Field],
        answer: Option<&Value>,
        text: &mut Vec<u8>,
    ) -> Result<(), AllocError>
        ensures { OnOk result (Writes columns.now
            (row.answered fields.now (option_copied answer.entry) ∷ []) self.old self.new
            text.old.items text.new.items) }
    {
        let digits = self.digits;
        match self.form {
            Form::Json => json_rows::push_item(digits, columns, fields, answer, text),
            Form::Csv => {
                cell_rows::push_item(
                    Delimiter::Comma,
                    digits,
                    columns,
                    fields,
                    answer,
                    &mut self.cell,
                    text,
                )
            }
            Form::Tsv => {
                cell_rows::push_item(
                    Delimiter::Tab,
                    digits,
                    columns,
                    fields,
                    answer,
                    &mut self.cell,
                    text,
                )
            }
            Form::Columns | Form::Dimmed => {
                self.ruler.push_item(digits, columns, fields, answer, text)
            }
        }
    }

    /// Appends a line that is skipped.
    pub(crate) fn push_skipped(
        &mut self,
        columns: &[Column],
        line: Option<&[u8]>,
        skip: Skip,
        text: &mut Vec<u8>,
    ) -> Result<(), AllocError>
        ensures { OnOk result (Writes columns.now
            (row.skipped (row.line_of (option_copied line.entry)) skip ∷ []) self.old self.new
            text.old.items text.new.items) }
    {
        match self.form {
            Form::Json => json_rows::push_skipped(line, skip, text),
            Form::Csv => cell_rows::push_skipped(
                Delimiter::Comma,
                columns,
                line,
                skip,
                &mut self.cell,
                text,
            ),
            Form::Tsv => cell_rows::push_skipped(
                Delimiter::Tab,
                columns,
                line,
                skip,
                &mut self.cell,
                text,
            ),
            Form::Columns | Form::Dimmed => column_rows::push_skipped(self.form, line, skip, text),
        }
    }
}
