//! What may stand at a place of a body.
ghost use Rattle.std.specs.Prelude.{◌≡◌, MatchOption, None, Some};
ghost use Rattle.query_templates.specs.Kinds.{all_places, go_together, places_inside};
ghost use Rattle.query_templates.specs.Kinds.{takes_column, takes_comparison, takes_number};
ghost use Rattle.query_templates.specs.Kinds.{takes_query, takes_rate, takes_stream_part};
ghost use Rattle.query_templates.specs.Kinds.{takes_test, takes_token, takes_word};
ghost use Rattle.query_templates.specs.Names.{part_at};

use crate::names::part_at;
use language_base::Span;
use query_forms::{TermPlace, fits_text, fits_word, places_of};
use query_tokens::{Token, TokenKind};

const PLACES: &[TermPlace] = &[
    TermPlace::Mode,
    TermPlace::Column,
    TermPlace::Kind,
    TermPlace::Query,
    TermPlace::Key,
    TermPlace::Rate,
    TermPlace::Pred,
    TermPlace::Literal,
    TermPlace::Expr,
    TermPlace::Compare,
    TermPlace::Name,
    TermPlace::Number,
    TermPlace::Text,
    TermPlace::Digits,
    TermPlace::Index,
];

/// All kinds of places.
pub(crate) fn all_places() -> &'static [TermPlace]
    ensures { result.now ≡ all_places }
{
    PLACES
}

fn takes_number(place: TermPlace) -> bool
    ensures { result ≡ takes_number place }
{
    matches!(
        place,
        TermPlace::Literal
            | TermPlace::Expr
            | TermPlace::Number
            | TermPlace::Digits
            | TermPlace::Index
    )
}

fn takes_column(place: TermPlace) -> bool
    ensures { result ≡ takes_column place }
{
    matches!(place, TermPlace::Key | TermPlace::Expr | TermPlace::Name)
}

fn takes_stream_part(place: TermPlace) -> bool
    ensures { result ≡ takes_stream_part place }
{
    matches!(place, TermPlace::Mode | TermPlace::Column | TermPlace::Kind)
}

fn takes_query(place: TermPlace) -> bool
    ensures { result ≡ takes_query place }
{
    matches!(place, TermPlace::Query)
}

fn takes_rate(place: TermPlace) -> bool
    ensures { result ≡ takes_rate place }
{
    matches!(place, TermPlace::Rate)
}

fn takes_test(place: TermPlace) -> bool
    ensures { result ≡ takes_test place }
{
    matches!(place, TermPlace::Pred)
}

fn takes_comparison(place: TermPlace) -> bool
    ensures { result ≡ takes_comparison place }
{
    matches!(place, TermPlace::Compare)
}

/// Whether one term may stand at both places.
pub(crate) fn go_together(one: TermPlace, other: TermPlace) -> bool
    ensures { result ≡ go_together one other }
{
    match one {
        TermPlace::Mode | TermPlace::Column | TermPlace::Kind => takes_stream_part(other),
        TermPlace::Query => takes_query(other),
        TermPlace::Rate => takes_rate(other),
        TermPlace::Pred => takes_test(other),
        TermPlace::Compare => takes_comparison(other),
        TermPlace::Key | TermPlace::Name => takes_column(other),
        TermPlace::Literal => takes_number(other) || fits_text(other),
        TermPlace::Expr => takes_number(other) || takes_column(other),
        TermPlace::Number | TermPlace::Digits | TermPlace::Index => takes_number(other),
        TermPlace::Text => fits_text(other),
    }
}

/// Whether a word, a number or a string may stand at a place.
#[tactic(auto, unfolding(crate::specs::Kinds::takes_token))]
pub(crate) fn takes_token(text: &[u8], at: TermPlace, token: Token) -> bool
    ensures { result ≡ takes_token text.now at token }
{
    match token.kind {
        TokenKind::Word => takes_word(text, at, token.span),
        TokenKind::Number => takes_number(at),
        TokenKind::Text => fits_text(at),
        TokenKind::Open | TokenKind::Close | TokenKind::Comma => false,
    }
}

fn takes_word(text: &[u8], at: TermPlace, word: Span) -> bool
    ensures { result ≡ takes_word at (part_at text.now word) }
{
    match part_at(text, word) {
        Some(bytes) => fits_word(at, bytes),
        None => false,
    }
}

/// The places of the arguments of a call with this head, if it may stand at a place.
pub(crate) fn places_inside(
    text: &[u8],
    at: TermPlace,
    head: Span,
    count: usize,
) -> Option<&'static [TermPlace]>
    ensures { MatchOption result (places_inside text.now at head count ≡ None)
        (λ places. places_inside text.now at head count ≡ Some places.now) }
{
    match part_at(text, head) {
        Some(word) => places_of(at, word, count),
        None => None,
    }
}
