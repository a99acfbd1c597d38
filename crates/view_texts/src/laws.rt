//! What holds of the texts of values.
ghost use Rattle.std.specs.Prelude.{◌≡◌};
ghost use Rattle.report_writer.specs.Texts as run;
ghost use Rattle.value_ops.specs.declared.value.Value.{Value};
ghost use Rattle.view_texts.specs.Values.{value_text};

use crate::notation::Notation;

/// With no digits after the point, the plain text of a value is what a run writes.
pub fn whole_numbers_are_written_as_a_run_writes_them()
    ensures { (value : Value) → value_text Notation.Plain 0 value ≡ run.value_text value }
{}
