//! What it means that a query has a value no more, or that further items lead on.
ghost use Rattle.std.specs.Prelude.{ℕ, List, IsTrue};
ghost use Rattle.dead_example.specs.Endings.{AreLinesOf, AreRead, LeadsToValue};
ghost use Rattle.item_schema.specs.Layout.{are_columns};
ghost use Rattle.item_schema.specs.declared.column.Column.{Column};
ghost use Rattle.query_model.specs.Monitors.{Monitor};
ghost use Rattle.query_model.specs.Rates.{rate_of};
ghost use Rattle.query_model.specs.Rules.{bound, IsClear};
ghost use Rattle.rate_expr.specs.Readings.{HasExtension};
ghost use Rattle.rate_expr.specs.Words.{Word, IsWordOf};

/// Where a query is bound, further items that lead to a word of its rate lead to a value.
pub fn going_on_leads_to_values()
    ensures { (monitor : Monitor) (word : Word)
        → IsClear bound monitor.layout.columns monitor.query
        → IsWordOf monitor.layout.columns word
        → HasExtension monitor.layout.columns (rate_of monitor.query) word
        → LeadsToValue monitor word }
{}

/// The lines of an ending are read to its items.
pub fn ending_lines_are_read_to_their_items()
    ensures { (columns : List Column) (word : Word) (lines : List (List ℕ))
        → IsTrue (are_columns columns) → IsWordOf columns word → AreLinesOf columns word lines
        → AreRead columns lines word }
{}
