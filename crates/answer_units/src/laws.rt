//! What holds of the units of answers.
ghost use Rattle.std.specs.Prelude.{◌≢◌, ℕ, List};
ghost use Rattle.std.specs.List.{All};
ghost use Rattle.item_schema.specs.declared.column.Column.{Column};
ghost use Rattle.query_model.specs.Queries.{Qre};
ghost use Rattle.answer_units.specs.Units.{HasNoPoint, answer_units};
ghost use Rattle.answer_units.specs.declared.units.Units.TheVariants.{Digits};

/// Where no column has digits after the point, no answer has any.
pub fn only_columns_give_answers_digits()
    ensures { (columns : List Column) (query : Qre) (digits : ℕ)
        → All (λ column. HasNoPoint column.kind) columns
        → answer_units columns query ≢ Digits digits }
{}
