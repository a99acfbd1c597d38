//! What holds of runs that go on after others.
ghost use Rattle.std.specs.Prelude.{◌≡◌, ◌≤◌, ◌+◌, ◌*◌, ℕ, Bool, ◌||◌, true, false, List, []};
ghost use Rattle.std.specs.Prelude.{◌++◌, length};
ghost use Rattle.io_edge.specs.Lines.{lines};
ghost use Rattle.item_schema.specs.Layout.{Layout};
ghost use Rattle.rate_expr.specs.Words.{Word};
ghost use Rattle.stream_run.specs.Meanings.{Meaning};
ghost use Rattle.stream_run.specs.Output.{answers, items_of};
ghost use Rattle.stream_run.specs.Resumed.{EndsLine, items_after, is_some_byte};
ghost use Rattle.stream_run.specs.Resumed.{output_after, whole_output_after};

/// A run that goes on after no item and no line is a run from the beginning.
pub fn what_goes_on_after_nothing_is_plain()
    ensures output { (meaning : Meaning) (bytes : List ℕ)
        → output_after meaning [] false bytes ≡ answers meaning (lines bytes true) }
    ensures whole { (meaning : Meaning) (bytes : List ℕ)
        → whole_output_after meaning [] false bytes ≡ answers meaning (lines bytes false) }
{}

/// If the first bytes are empty or end with an LF, what is written for them and others after them
/// is what is written for them, and then what is written for the others after their items.
pub fn output_goes_on_between_lines()
    ensures cut { (meaning : Meaning) (first others : List ℕ) → EndsLine first
        → answers meaning (lines (first ++ others) true)
        ≡ answers meaning (lines first true)
        ++ output_after meaning (items_of meaning.layout (lines first true)) (is_some_byte first)
        others }

    // So it is for a run that goes on itself.
    ensures again { (meaning : Meaning) (word : Word) (began : Bool) (first others : List ℕ)
        → EndsLine first → output_after meaning word began (first ++ others)
        ≡ output_after meaning word began first
        ++ output_after meaning (word ++ items_after meaning.layout began first)
        (began || is_some_byte first) others }
    ensures whole { (meaning : Meaning) (word : Word) (began : Bool) (first others : List ℕ)
        → EndsLine first → whole_output_after meaning word began (first ++ others)
        ≡ output_after meaning word began first
        ++ whole_output_after meaning (word ++ items_after meaning.layout began first)
        (began || is_some_byte first) others }
    ensures items { (layout : Layout) (began : Bool) (first others : List ℕ) → EndsLine first
        → items_after layout began (first ++ others)
        ≡ items_after layout began first
        ++ items_after layout (began || is_some_byte first) others }
{}

/// All items but the last take two bytes at least: one of their own, and an LF.
pub fn items_take_two_bytes_each()
    ensures few { (layout : Layout) (began : Bool) (bytes : List ℕ)
        → 2 * length (items_after layout began bytes) ≤ length bytes + 1 }
{}
