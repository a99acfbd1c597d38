//! What holds of every query that is rewritten.
ghost use Rattle.std.specs.Prelude.{List};
ghost use Rattle.item_schema.specs.declared.column.Column.{Column};
ghost use Rattle.query_model.specs.Queries.{Qre};
ghost use Rattle.query_model.specs.Rules.{Standing, IsClear};
ghost use Rattle.query_rewrite.specs.Meanings.{MeanTheSame};
ghost use Rattle.query_rewrite.specs.Rewriting.{Rewrites};
ghost use Rattle.query_rewrite.specs.Plainness.{IsPlain};
ghost use Rattle.query_rewrite.specs.Steps.{rewritten};
ghost use Rattle.query_rewrite.specs.Levels.{HasFewLevels};

/// A query that keeps the rules means what each query means that it may be rewritten as.
pub fn rewriting_keeps_what_a_query_means()
    ensures { (standing : Standing) (columns : List Column) (query other : Qre)
        → IsClear standing columns query → Rewrites query other → MeanTheSame columns query other }
{}
