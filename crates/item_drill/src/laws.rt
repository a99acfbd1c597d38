//! What holds of all drills.
ghost use Rattle.std.specs.Prelude.{◌≡◌, ◌<◌, ◌≤◌, ◌++◌, ℕ, true, IsTrue, List, Ok, length, map};
ghost use Rattle.std.specs.List.{AllByRecursion};
ghost use Rattle.io_edge.specs.Lines.{NoLf, ended_by_lf, lines, text};
ghost use Rattle.language_base.specs.Limits.{max_columns};
ghost use Rattle.item_schema.specs.Layout.{Layout};
ghost use Rattle.line_reader.specs.Reading.{item_of};
ghost use Rattle.item_schema.specs.declared.column.Column.{Column};
ghost use Rattle.item_drill.specs.Lines.{are_read, drill_bytes, header_of, item_from, line_from};
ghost use Rattle.item_drill.specs.Lines.{lines_from, names_of};

/// A line of a drill is read to the item that was drawn for it, so that none is skipped.
pub fn drilled_lines_have_items()
    ensures { (columns : List Column) (state : ℕ) → 0 < length columns → IsTrue (are_read columns)
        → item_of columns (line_from columns state) ≡ Ok (item_from columns state) }
{}

/// The lines of all bytes of a drill are its header and the lines that were drawn, and no others,
/// if no name of a column has an LF.
pub fn drilled_bytes_have_lines()
    ensures { (layout : Layout) (count seed : ℕ) → length layout.columns ≤ max_columns
        → IsTrue (are_read layout.columns) → AllByRecursion NoLf (names_of layout.columns)
        → lines (drill_bytes layout count seed) true
        ≡ map ended_by_lf (header_of layout) ++ map text (lines_from layout.columns count seed) }
{}
