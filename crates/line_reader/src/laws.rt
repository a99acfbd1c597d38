//! What holds of the items of all lines.
ghost use Rattle.std.specs.Prelude.{◌≡◌, ◌<◌, ◌↔◌, ℕ, List, Some, Ok, Err, false, length};
ghost use Rattle.csv.specs.Reading.{strip_bom};
ghost use Rattle.std.specs.List.{list_any};
ghost use Rattle.line_reader.specs.CutLines.{is_break, texts_in};
ghost use Rattle.item_schema.specs.Items.{IsItemOf};
ghost use Rattle.line_reader.specs.Reading.{item_of, record_of};
ghost use Rattle.line_reader.specs.Skipped.{SkipsLine};
ghost use Rattle.line_reader.specs.Written.{WritesItem};
ghost use Rattle.item_schema.specs.declared.column.Column.{Column};
ghost use Rattle.line_reader.specs.declared.stop.Skip.{Skip};
ghost use Rattle.value_ops.specs.Texts.{IsText};
ghost use Rattle.value_ops.specs.declared.field.Field.{Field};

/// The item of a line is the one that its texts write.
pub fn lines_write_their_items()
    ensures { (columns : List Column) (line : List ℕ) (fields : List Field) →
        (item_of columns line ≡ Ok fields) ↔ WritesItem columns line fields }
{}

/// A line without an item is left out for what is wrong with its texts.
pub fn lines_are_skipped_for_their_texts()
    ensures { (columns : List Column) (line : List ℕ) (skip : Skip) →
        (item_of columns line ≡ Err skip) ↔ SkipsLine columns line skip }
{}

/// The item of a line of bytes is one of the columns.
pub fn lines_have_items_of_their_columns()
    ensures { (columns : List Column) (line : List ℕ) (fields : List Field) →
        IsText line → item_of columns line ≡ Ok fields → IsItemOf columns fields }
{}

/// The record of a line without CR and LF has the texts between those commas that are not quoted,
/// where more than a byte order mark stands in it.
pub fn lines_are_cut_outside_quotes()
    ensures { (line : List ℕ) → 0 < length (strip_bom line)
        → list_any is_break (strip_bom line) ≡ false
        → record_of line ≡ Some (texts_in (strip_bom line)) }
{}
