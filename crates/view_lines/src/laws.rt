//! What holds of views.
ghost use Rattle.std.specs.Prelude.{◌≡◌, ◌++◌, ◌∷◌, [], ℕ, List, codes, Some, Ok, false};
ghost use Rattle.io_edge.specs.Lines.{Shown};
ghost use Rattle.report_writer.specs.Texts as run;
ghost use Rattle.stream_run.specs.Meanings.{Meaning};
ghost use Rattle.stream_run.specs.Output.{answer, is_header, read_of, value_after};
ghost use Rattle.value_ops.specs.declared.field.Field.{Field};
ghost use Rattle.view_lines.specs.JsonRows.{json_row, members};
ghost use Rattle.view_lines.specs.Rows.{row_of};
ghost use Rattle.view_texts.specs.Values as text;

use view_texts::Notation;

/// For an item a run writes the value after it, and the object of its row has that very value.
pub fn the_answer_of_a_view_is_that_of_a_run()
    ensures run { (meaning : Meaning) (before : List Shown) (line : Shown) (fields : List Field)
        → is_header meaning.layout before ≡ false
        → read_of meaning.layout.columns line ≡ Some (Ok fields)
        → answer meaning before line
        ≡ run.answer_text (value_after meaning (before ++ line ∷ [])) }
    ensures view { (digits : ℕ) (meaning : Meaning) (before : List Shown) (line : Shown)
        (fields : List Field) → is_header meaning.layout before ≡ false
        → read_of meaning.layout.columns line ≡ Some (Ok fields)
        → json_row digits meaning.layout.columns (row_of meaning before line)
        ≡ codes "{" ++ members meaning.layout.columns fields ++ codes "\"answer\":"
        ++ text.answer_text Notation.Json digits (value_after meaning (before ++ line ∷ []))
        ++ codes "}\n" }
{}
