//! What holds of the lines of all items.
ghost use Rattle.std.specs.Prelude.{◌≡◌, List, Ok, IsTrue};
ghost use Rattle.value_ops.specs.declared.field.Field.{Field};
ghost use Rattle.item_schema.specs.Items.{IsItemOf};
ghost use Rattle.item_schema.specs.Layout.{are_columns};
ghost use Rattle.line_reader.specs.Reading.{item_of};
ghost use Rattle.item_schema.specs.declared.column.Column.{Column};
ghost use Rattle.item_lines.specs.Lines.{is_shown, line_of};

/// The line that is shown for an item of a stream is read to that very item.
pub fn shown_lines_are_read_to_their_items()
    ensures { (columns : List Column) (item : List Field) → IsTrue (are_columns columns)
        → IsItemOf columns item → IsTrue (is_shown (line_of columns item))
        → item_of columns (line_of columns item) ≡ Ok item }
{}
