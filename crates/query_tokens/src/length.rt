//! The lengths of tokens.
ghost use Rattle.std.specs.Prelude.{◌≡◌, length, take_while};
ghost use Rattle.std.specs.Char.{is_ascii_digit};
ghost use Rattle.query_tokens.specs.Raw.{is_word_byte};
ghost use Rattle.query_tokens.specs.Front.{kind_of, kind_at, sign_len, number_len, IsLength};
ghost use Rattle.query_tokens.specs.Front.{IsFirst};

use crate::part::closing_len;
use crate::token::TokenKind;

fn is_word_byte(byte: u8) -> bool
    ensures { result ≡ is_word_byte byte }
{
    byte.is_ascii_alphanumeric() || byte == b'_'
}

fn kind_from(first: u8) -> Option<TokenKind>
    ensures { result ≡ kind_of first }
{
    match first {
        b'(' => Some(TokenKind::Open),
        b')' => Some(TokenKind::Close),
        b',' => Some(TokenKind::Comma),
        b'"' => Some(TokenKind::Text),
        b'+' | b'-' | b'0'..=b'9' => Some(TokenKind::Number),
        b'_' | b'A'..=b'Z' | b'a'..=b'z' => Some(TokenKind::Word),
        _ => None,
    }
}

fn kind_at(text: &[u8]) -> Option<TokenKind>
    ensures { result ≡ kind_at text.now }
{
    let (&first, _) = text.split_first()?;
    kind_from(first)
}

fn word_len(text: &[u8]) -> usize
    ensures { result ≡ length (take_while is_word_byte text.now) }
{
    text.iter().take_while(|byte| is_word_byte(**byte)).count()
}

fn digits_len(text: &[u8]) -> usize
    ensures { result ≡ length (take_while is_ascii_digit text.now) }
{
    text.iter().take_while(|byte| byte.is_ascii_digit()).count()
}

fn sign_len(text: &[u8]) -> usize
    ensures { result ≡ sign_len text.now }
{
    match text {
        [b'+' | b'-', ..] => 1,
        _ => 0,
    }
}

fn number_len(text: &[u8]) -> Option<usize>
    ensures { result ≡ number_len text.now }
{
    let sign = sign_len(text);
    let digits = digits_len(&text[sign..]);
    (0 < digits).then_some(sign + digits)
}

fn len_of(kind: TokenKind, text: &[u8]) -> Option<usize>
    requires { kind_at text.now ≡ Some kind }
    ensures { IsLength kind text.now result }
{
    match kind {
        TokenKind::Word => Some(word_len(text)),
        TokenKind::Number => number_len(text),
        TokenKind::Text => Some(closing_len(&text[1..])? + 1),
        TokenKind::Open | TokenKind::Close | TokenKind::Comma => Some(1),
    }
}

/// The kind and the length of the token at the front.
pub(crate) fn token_at(text: &[u8]) -> Option<(TokenKind, usize)>
    ensures { IsFirst text.now result }
{
    let kind = kind_at(text)?;
    let len = len_of(kind, text)?;
    Some((kind, len))
}
