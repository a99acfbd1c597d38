//! The widths of columns so far, and rows in them.
ghost use Rattle.std.specs.Option.{option_copied};
ghost use Rattle.std.specs.Prelude.{◌≡◌, ◌++◌, [], OnOk};
ghost use Rattle.view_lines.specs.Columns.{item_cells, item_line, name_cells, name_line, wider};

use crate::column_rows::{push_item, push_names};
use crate::shown_cell::ShownCell;
use item_schema::Column;
use std::alloc::{AllocError, Global};
use std::mem;
use value_ops::{Field, Value};

/// It knows how wide each column was at most, and last of all the answer.
#[derive(Drop)]
pub(crate) struct Ruler {
    widths: Vec<usize>,
    // What is in these does not matter; they are kept for their room.
    after: Vec<usize>,
    cell: ShownCell,
}

impl Ruler {
    pub(crate) fn new(alloc: Global) -> Ruler
        ensures { result.widths.items ≡ [] }
    {
        Ruler {
            widths: Vec::new(alloc),
            after: Vec::new(alloc),
            cell: ShownCell::new(alloc),
        }
    }

    /// Appends the names.
    pub(crate) fn push_names(
        &mut self,
        columns: &[Column],
        text: &mut Vec<u8>,
    ) -> Result<(), AllocError>
        ensures widths { OnOk result (
            self.new.widths.items ≡ wider self.old.widths.items (name_cells columns.now)) }
        ensures text { OnOk result (text.new.items ≡ text.old.items
            ++ name_line columns.now (wider self.old.widths.items (name_cells columns.now))) }
    {
        self.after.clear();
        push_names(
            columns,
            self.widths.as_slice(),
            &mut self.cell,
            &mut self.after,
            text,
        )?;
        mem::swap(&mut self.widths, &mut self.after);
        Ok(())
    }

    /// Appends an item with its answer.
    pub(crate) fn push_item(
        &mut self,
        digits: u8,
        columns: &[Column],
        fields: &[Field],
        answer: Option<&Value>,
        text: &mut Vec<u8>,
    ) -> Result<(), AllocError>
        ensures widths { let value = option_copied answer.entry in
            OnOk result (self.new.widths.items ≡ wider self.old.widths.items
            (item_cells digits columns.now fields.now value)) }
        ensures text { let value = option_copied answer.entry in
            OnOk result (text.new.items ≡ text.old.items
            ++ item_line digits columns.now fields.now value
            (wider self.old.widths.items (item_cells digits columns.now fields.now value))) }
    {
        self.after.clear();
        let widths = self.widths.as_slice();
        push_item(
            digits,
            columns,
            fields,
            answer,
            widths,
            &mut self.cell,
            &mut self.after,
            text,
        )?;
        mem::swap(&mut self.widths, &mut self.after);
        Ok(())
    }
}
