//! The text of a query reads back.
ghost use Rattle.std.specs.Prelude.{◌≤◌, length};
ghost use Rattle.item_schema.specs.Layout.{Layout};
ghost use Rattle.language_base.specs.Limits.{max_text};
ghost use Rattle.query_compiler.specs.Compiled.{Compiles};
ghost use Rattle.query_model.specs.Queries.{Qre};
ghost use Rattle.query_model.specs.Rules.{free};
ghost use Rattle.query_text.specs.Programs.{text_of};
ghost use Rattle.text_reads_back.specs.Reach.{ReachesFew};
ghost use Rattle.text_reads_back.specs.Written.{CanBeWritten, ReadsAs};
ghost use Rattle.type_checker.specs.Judged.{accepted};

/// A text that is not too long is read to the query that it was written of, and is compiled to it
/// where at no node too many states are reached.
pub fn texts_read_back()
    ensures read { (layout : Layout) (query : Qre) → CanBeWritten layout query
        → length (text_of layout query) ≤ max_text → ReadsAs (text_of layout query) layout query }
    ensures compiled { (layout : Layout) (query : Qre) → CanBeWritten layout query
        → ReachesFew free layout.columns query → length (text_of layout query) ≤ max_text
        → Compiles (text_of layout query)
        (accepted (record { layout = layout; query = query })) }
{}
