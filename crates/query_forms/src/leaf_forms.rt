//! The words, numbers and strings that may stand at each place.
ghost use Rattle.std.specs.Prelude.{◌≡◌};
ghost use Rattle.std.specs.Str.Parse.{signed_digits_value};
ghost use Rattle.query_tokens.specs.Raw.{IsRaw};
ghost use Rattle.query_tokens.specs.declared.token.TokenKind.TheVariants.{Number};
ghost use Rattle.query_forms.specs.Forms.{fits_number, fits_string, fits_word};

use crate::term_place::TermPlace;
use query_tokens::number_value;

/// Whether a word may stand at the place.
pub fn fits_word(place: TermPlace, word: &[u8]) -> bool
    ensures { result ≡ fits_word place word.now }
{
    match place {
        TermPlace::Mode => word == b"plain".as_slice() || word == b"header".as_slice(),
        TermPlace::Kind => word == b"int".as_slice() || word == b"text".as_slice(),
        TermPlace::Rate => word == b"eps".as_slice(),
        TermPlace::Pred => word == b"any".as_slice(),
        TermPlace::Query | TermPlace::Key | TermPlace::Expr | TermPlace::Name => true,
        TermPlace::Column
        | TermPlace::Literal
        | TermPlace::Compare
        | TermPlace::Number
        | TermPlace::Text
        | TermPlace::Digits
        | TermPlace::Index => false,
    }
}

/// Whether a string may stand at the place.
pub fn fits_text(place: TermPlace) -> bool
    ensures { result ≡ fits_string place }
{
    matches!(place, TermPlace::Literal | TermPlace::Text)
}

/// Whether the number that these bytes write may stand at the place.
pub fn fits_number(place: TermPlace, raw: &[u8]) -> bool
    requires { IsRaw Number raw.now }
    ensures { result ≡ fits_number place (signed_digits_value 10 raw.now) }
{
    match place {
        TermPlace::Literal | TermPlace::Expr | TermPlace::Number => true,
        TermPlace::Digits => matches!(number_value(raw), Some(1..=9)),
        TermPlace::Index => matches!(number_value(raw), Some(1..=8)),
        TermPlace::Mode
        | TermPlace::Column
        | TermPlace::Kind
        | TermPlace::Query
        | TermPlace::Key
        | TermPlace::Rate => false,
        TermPlace::Pred | TermPlace::Compare | TermPlace::Name | TermPlace::Text => false,
    }
}
