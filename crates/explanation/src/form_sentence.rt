//! A sentence for the forms of each place.
ghost use Rattle.std.specs.Prelude.{◌≡◌};
ghost use Rattle.explanation.specs.FormSentences.{forms_of, forms_of_place};

use crate::expectation::Standing;
use query_forms::TermPlace;

const TOP: &str = "\
    A file is stream(MODE, COL, ..) with 1 to 32 COL, then any let(NAME, QUERY), then \
    main(QUERY).";

const MODE: &str = "A mode is plain or header: with header the first line is no item.";

const COLUMN: &str =
    "A column is col(NAME, int), col(NAME, text) or col(NAME, fixed(1)) to fixed(9).";

const KIND: &str = "A kind is int, text or fixed(1) to fixed(9), as in col(NAME, fixed(2)).";

const QUERY: &str = "\
    A query is atom(PRED, EXPR), eps(NUM), or(QUERY, QUERY), split(QUERY, QUERY, EXPR), \
    iter(QUERY, NUM, EXPR), combine(QUERY, QUERY, EXPR), apply(QUERY, EXPR), compose(QUERY, \
    QUERY), collect(KEY, PRED, RATE, QUERY) or the NAME of a let.";

const KEY: &str = "A key is the NAME of a column, or key(NAME, ..) with 2 to 4 NAME.";

const RATE: &str = "A rate is eps, item(PRED), seq(RATE, RATE), alt(RATE, RATE) or star(RATE).";

const PREDICATE: &str = "\
    A predicate is any, eq or ne of (NAME, NUM) or (NAME, STR), lt, le, gt or ge of (NAME, \
    NUM), between(NAME, NUM, NUM), isnum(NAME), and(PRED, PRED), or(PRED, PRED) or not(PRED).";

const LITERAL: &str =
    "A number or a string stands here, as 500 or \"lab\"; an if compares two columns.";

const EXPRESSION: &str = "\
    An expression is NUM, NAME, neg or abs of (EXPR), add, sub, mul, div, rem, min or max of \
    (EXPR, EXPR), if(CMP, EXPR, EXPR), tsum or tcount of (NAME), tmax or tmin of (NAME, EXPR), \
    tget(NAME, STR, EXPR), rec(EXPR, ..) with 2 to 8 EXPR or part(NAME, N) with N from 1 to 8.";

const COMPARISON: &str = "A comparison is lt, le, gt, ge, eq or ne of (EXPR, EXPR).";

const NAME: &str = "A name stands here: a letter or _, and then letters, digits and _.";

const NUMBER: &str =
    "A number stands here, as 0 or -5; an if compares two columns, and eq and ne take strings.";

const TEXT: &str = "A key stands here: a string, as \"lab\".";

const DIGITS: &str = "A number from 1 to 9 stands here: how many digits may stand after the point.";

const INDEX: &str = "A number from 1 to 8 stands here: which part of the record.";

/// The forms of what is to stand at a place.
pub(crate) fn forms_of(standing: Standing) -> &'static str
    ensures { result.now ≡ forms_of standing }
{
    match standing {
        Standing::Top | Standing::Nothing => TOP,
        Standing::In(place) => forms_of_place(place),
    }
}

#[tactic(auto, unfolding(crate::specs::FormSentences::forms_of_place))]
fn forms_of_place(place: TermPlace) -> &'static str
    ensures { result.now ≡ forms_of_place place }
{
    match place {
        TermPlace::Mode => MODE,
        TermPlace::Column => COLUMN,
        TermPlace::Kind => KIND,
        TermPlace::Query => QUERY,
        TermPlace::Key => KEY,
        TermPlace::Rate => RATE,
        TermPlace::Pred => PREDICATE,
        TermPlace::Literal => LITERAL,
        TermPlace::Expr => EXPRESSION,
        TermPlace::Compare => COMPARISON,
        TermPlace::Name => NAME,
        TermPlace::Number => NUMBER,
        TermPlace::Text => TEXT,
        TermPlace::Digits => DIGITS,
        TermPlace::Index => INDEX,
    }
}
