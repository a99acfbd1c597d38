//! What holds of every query that keeps the rules, at every node and on words of items of the
//! node's stream.
ghost use Rattle.std.specs.Prelude.{◌≡◌, ◌↔◌, ◌⊎◌, ℕ, List};
ghost use Rattle.value_ops.specs.declared.field.Field.{Field};
ghost use Rattle.value_ops.specs.Types.{IsValueOf};
ghost use Rattle.value_ops.specs.declared.value.Value.{Value};
ghost use Rattle.item_schema.specs.declared.column.Column.{Column};
ghost use Rattle.rate_expr.specs.Language.{In};
ghost use Rattle.rate_expr.specs.Words.{Word, IsWordOf};
ghost use Rattle.query_model.specs.Denotation.{Den};
ghost use Rattle.query_model.specs.Keys.{AgreeIn, key_of};
ghost use Rattle.query_model.specs.Queries.{Qre};
ghost use Rattle.query_model.specs.QueryTypes.{type_of};
ghost use Rattle.query_model.specs.Rates.{rate_of};
ghost use Rattle.query_model.specs.Rules.{Standing, bound, IsClear};

/// Two items have the same key exactly where they have the same texts in all its columns.
pub fn items_have_the_same_key_where_they_agree()
    ensures { (chosen : List ℕ) (item other : List Field)
        → (key_of chosen item ≡ key_of chosen other) ↔ AgreeIn chosen item other }
{}

/// A word has at most one value.
pub fn a_word_has_at_most_one_value()
    ensures { (standing : Standing) (columns : List Column) (query : Qre) (word : Word)
        (value other : Value) → IsClear standing columns query → IsWordOf columns word
        → Den query word value → Den query word other → value ≡ other }
{}

/// A query has values on words of its rate alone, and on each of them where it is bound.
pub fn queries_have_values_on_their_rates()
    ensures only { (standing : Standing) (columns : List Column) (query : Qre) (word : Word)
        (value : Value) → IsClear standing columns query → IsWordOf columns word
        → Den query word value → In (rate_of query) word }
    ensures each { (columns : List Column) (query : Qre) (word : Word) → IsClear bound columns query
        → IsWordOf columns word → In (rate_of query) word → (value : Value) × Den query word value }
{}

/// It is decided whether a query has a value on a word, since it is decided of which
/// rates the word is.
pub fn each_word_has_a_value_or_none()
    ensures { (standing : Standing) (columns : List Column) (query : Qre) (word : Word)
        → IsClear standing columns query → IsWordOf columns word
        → ((value : Value) × Den query word value) ⊎ ((value : Value) → Den query word value → ⊥) }
{}

/// Values have the types of their queries.
pub fn values_have_the_types_of_their_queries()
    ensures { (standing : Standing) (columns : List Column) (query : Qre) (word : Word)
        (value : Value) → IsClear standing columns query → IsWordOf columns word
        → Den query word value → IsValueOf (type_of columns query) value }
{}
