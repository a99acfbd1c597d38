//! From a text that compiles to the text of what its query may be rewritten as.
ghost use Rattle.std.specs.Prelude.{◌≤◌, ℕ, List, length};
ghost use Rattle.item_schema.specs.Layout.{Layout};
ghost use Rattle.language_base.specs.Limits.{max_text};
ghost use Rattle.query_compiler.specs.Compiled.{Compiles};
ghost use Rattle.query_model.specs.Queries.{Qre};
ghost use Rattle.query_model.specs.Rules.{free};
ghost use Rattle.query_rewrite.specs.Rewriting.{Rewrites};
ghost use Rattle.query_text.specs.Programs.{text_of};
ghost use Rattle.text_reads_back.specs.Reach.{ReachesFew};
ghost use Rattle.text_reads_back.specs.Written.{CanBeWritten};
ghost use Rattle.type_checker.specs.Judged.{accepted};
ghost use Rattle.value_ops.specs.Texts.{IsText};

/// What a text compiles to can be written as a text again, and reaches few states.
pub fn compiled_queries_can_be_written()
    ensures written { (text : List ℕ) (layout : Layout) (query : Qre) → IsText text
        → Compiles text (accepted (record { layout = layout; query = query }))
        → CanBeWritten layout query }
    ensures reach { (text : List ℕ) (layout : Layout) (query : Qre)
        → Compiles text (accepted (record { layout = layout; query = query }))
        → ReachesFew free layout.columns query }
{}

/// Where a query can be written, each that it may be rewritten as can; and where it reaches few
/// states, so does that one.
pub fn rewriting_keeps_what_can_be_written()
    ensures written { (layout : Layout) (query other : Qre) → CanBeWritten layout query
        → Rewrites query other → CanBeWritten layout other }
    ensures reach { (layout : Layout) (query other : Qre) → CanBeWritten layout query
        → Rewrites query other → ReachesFew free layout.columns query
        → ReachesFew free layout.columns other }
{}

/// A query that a text compiles to may be rewritten: the text of the new query, if it is not too
/// long, compiles to that query on the same stream.
pub fn rewritten_texts_compile()
    ensures { (text : List ℕ) (layout : Layout) (query other : Qre) → IsText text
        → Compiles text (accepted (record { layout = layout; query = query }))
        → Rewrites query other → length (text_of layout other) ≤ max_text
        → Compiles (text_of layout other)
        (accepted (record { layout = layout; query = other })) }
{}
