//! What is often meant by a word at its place.
ghost use Rattle.std.specs.Prelude.{◌≡◌, None, Some, MatchOption};
ghost use Rattle.explanation.specs.Nearest.{has_forms, has_upper, has_words, nearest_in};
ghost use Rattle.explanation.specs.Nearest.{nearest_to, rows_at, rows_of, said_in, shown_row};
ghost use Rattle.explanation.specs.Nearest.{shown_rows};

use crate::expectation::Standing;
use crate::nearest_words::{
    COMPARISONS, EXPRESSIONS, KEYS, KINDS, NUMBERS, PREDICATES, QUERIES, RATES, TOPS,
};
use query_forms::TermPlace;

const LOWER_CASE: &str = "The words of all forms are written in lower case.";

/// What is often meant by the word where this has to stand, if that is known.
pub(crate) fn nearest_to(standing: Standing, word: &[u8]) -> Option<&'static str>
    ensures { MatchOption result (nearest_to standing word.now ≡ None)
        (λ sentence. nearest_to standing word.now ≡ Some sentence.now) }
{
    match nearest_in(rows_at(standing), word) {
        Some(sentence) => Some(sentence),
        None => (has_forms(standing) && has_upper(word)).then_some(LOWER_CASE),
    }
}

fn has_forms(standing: Standing) -> bool
    ensures { result ≡ has_forms standing }
{
    match standing {
        Standing::In(place) => has_words(place),
        Standing::Top | Standing::Nothing => true,
    }
}

// Whether words of the language may stand at the place, and not only names, numbers or strings.
fn has_words(place: TermPlace) -> bool
    ensures { result ≡ has_words place }
{
    match place {
        TermPlace::Name
        | TermPlace::Number
        | TermPlace::Literal
        | TermPlace::Text
        | TermPlace::Digits
        | TermPlace::Index => false,
        _ => true,
    }
}

fn has_upper(word: &[u8]) -> bool
    ensures { result ≡ has_upper word.now }
{
    word.iter().any(|byte| byte.is_ascii_uppercase())
}

fn nearest_in(rows: &'static [[&'static str; 2]], word: &[u8]) -> Option<&'static str>
    ensures { MatchOption result (nearest_in (shown_rows rows.now) word.now ≡ None)
        (λ sentence. nearest_in (shown_rows rows.now) word.now ≡ Some sentence.now) }
{
    'rows: for row in rows {
        if let Some(sentence) = said_in(row, word) {
            return Some(sentence);
        }
    }
    None
}

fn said_in(row: &[&'static str], word: &[u8]) -> Option<&'static str>
    ensures { MatchOption result (said_in (shown_row row.now) word.now ≡ None)
        (λ sentence. said_in (shown_row row.now) word.now ≡ Some sentence.now) }
{
    match row {
        [known, sentence] if known.as_bytes() == word => Some(*sentence),
        _ => None,
    }
}

#[tactic(auto, unfolding(crate::specs::Nearest::rows_at))]
fn rows_at(standing: Standing) -> &'static [[&'static str; 2]]
    ensures { shown_rows result.now ≡ rows_at standing }
{
    match standing {
        Standing::Top => &TOPS,
        Standing::In(place) => rows_of(place),
        Standing::Nothing => &[],
    }
}

#[tactic(auto, unfolding(crate::specs::Nearest::rows_of))]
fn rows_of(place: TermPlace) -> &'static [[&'static str; 2]]
    ensures { shown_rows result.now ≡ rows_of place }
{
    match place {
        TermPlace::Kind => &KINDS,
        TermPlace::Query => &QUERIES,
        TermPlace::Key => &KEYS,
        TermPlace::Rate => &RATES,
        TermPlace::Pred => &PREDICATES,
        TermPlace::Expr => &EXPRESSIONS,
        TermPlace::Compare => &COMPARISONS,
        TermPlace::Number => &NUMBERS,
        TermPlace::Mode
        | TermPlace::Column
        | TermPlace::Literal
        | TermPlace::Name
        | TermPlace::Text
        | TermPlace::Digits
        | TermPlace::Index => { &[] }
    }
}
