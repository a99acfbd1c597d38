//! What holds of what is written beside lines, and of the last answer.
ghost use Rattle.std.specs.Prelude.{◌≡◌, ◌⊎◌, ℕ, List, [], ◌∷◌, ◌++◌, length, true};
ghost use Rattle.std.specs.List.{AllByRecursion};
ghost use Rattle.io_edge.specs.Lines.{Shown, lines};
ghost use Rattle.stream_run.specs.Meanings.{Meaning};
ghost use Rattle.stream_run.specs.Output.{answer, answers, items_of};
ghost use Rattle.beside_lines.specs.AfterTabs.{column_of, rows_after_header};
ghost use Rattle.beside_lines.specs.Besides.{besides};
ghost use Rattle.beside_lines.specs.LastAnswer.{AreNoItems, last_answer};

/// Where the streams of the queries are one, what stands in the column of a query, of all lines but
/// the header, is what a run of that query writes. The columns are counted from the last one, since
/// the line itself may have tabs: the last one is what stands after the last tab.
pub fn a_column_is_what_its_query_writes()
    ensures { (before : List Meaning) (meaning : Meaning) (after : List Meaning) (bytes : List ℕ)
        → AllByRecursion (λ other. other.layout ≡ meaning.layout) (before ++ meaning ∷ after)
        → column_of (length after) (rows_after_header meaning.layout.has_header
        (besides (before ++ meaning ∷ after) (lines bytes true)))
        ≡ answers meaning (lines bytes true) }
{}

/// Where there is an item, the last line that is an item has the last answer for its answer in a
/// run.
pub fn the_last_answer_is_the_one_on_all_items()
    ensures { (meaning : Meaning) (shown : List Shown) → (items_of meaning.layout shown ≡ [])
        ⊎ ((before : List Shown) × (line : Shown) × (others : List Shown)
        × (shown ≡ before ++ line ∷ others)
        × (answer meaning before line ≡ last_answer meaning shown)
        × AreNoItems meaning.layout (before ++ line ∷ []) others) }
{}
