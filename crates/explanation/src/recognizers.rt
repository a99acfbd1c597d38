//! Which hint fits the place of a refusal, by the bytes that stand there.
ghost use Rattle.std.specs.Prelude.{◌≡◌, ◌≤◌, ◌<◌, ◌-◌, length, slice_get};
ghost use Rattle.std.specs.List.{prefix_len};
ghost use Rattle.query_tokens.specs.Raw.{is_word_byte};
ghost use Rattle.explanation.specs.Hints.{ascii_hint, begins_comment, foreign_hint, foreign_of};
ghost use Rattle.explanation.specs.Hints.{head_of, hint_at, hint_of, is_digit, mark_hint};
ghost use Rattle.explanation.specs.Hints.{piece_hint, term_at, token_hint, type_hint, word_at};

use crate::hint::Hint;
use language_base::{Refusal, Rule, Span};
use place_in_text::bytes_between;

/// The hint for a refusal, if there is one.
#[tactic(auto, unfolding(crate::specs::Hints::hint_of))]
pub(crate) fn hint_of(text: &[u8], refusal: Refusal) -> Option<Hint>
    ensures { result ≡ hint_of text.now refusal }
{
    match byte_at(text, refusal.span.from as usize) {
        Some(byte) => hint_at(refusal.rule, text, refusal.span, byte),
        None => None,
    }
}

// The hint if the place begins with this byte.
fn hint_at(rule: Rule, text: &[u8], span: Span, byte: u8) -> Option<Hint>
    ensures { result ≡ hint_at rule text.now span byte }
{
    match rule {
        Rule::Token => token_hint(text, span.from as usize, byte),
        Rule::Term => piece_hint(byte),
        Rule::Name => (term_at(text, span) == b"eps".as_slice()).then_some(Hint::EmptyWord),
        Rule::Mismatch => type_hint(head_of(term_at(text, span))),
        Rule::Cells => {
            (head_of(term_at(text, span)) == b"compose".as_slice()).then_some(Hint::ValueCells)
        }
        Rule::Empty => {
            (head_of(term_at(text, span)) == b"collect".as_slice()).then_some(Hint::RateItem)
        }
        _ => None,
    }
}

fn byte_at(text: &[u8], place: usize) -> Option<u8>
    ensures { result ≡ slice_get text.now place }
{
    text.get(place).copied()
}

/// The bytes of the span that lie in the text.
pub(crate) fn term_at(text: &[u8], span: Span) -> &[u8]
    ensures { result.now ≡ term_at text.now span }
{
    bytes_between(text, span.from as usize, span.to as usize)
}

pub(crate) fn is_word_byte(byte: u8) -> bool
    ensures { result ≡ is_word_byte byte }
{
    byte.is_ascii_alphanumeric() || byte == b'_'
}

fn word_len(term: &[u8]) -> usize
    ensures within { result ≤ length term.now }
    ensures len { result ≡ prefix_len is_word_byte term.now }
{
    term.iter().take_while(|byte| is_word_byte(**byte)).count()
}

/// The word that the term at the place begins with.
pub(crate) fn word_at(text: &[u8], span: Span) -> &[u8]
    ensures { result.now ≡ word_at text.now span }
{
    let term = term_at(text, span);
    &term[..word_len(term)]
}

// The word before the brackets of a call; empty for any other term.
fn head_of(term: &[u8]) -> &[u8]
    ensures { result.now ≡ head_of term.now }
{
    let len = word_len(term);
    if len == term.len() {
        return &term[..0];
    }
    &term[..len]
}

// The hint for a byte that begins no token, by the bytes around it.
fn token_hint(text: &[u8], from: usize, byte: u8) -> Option<Hint>
    requires { from < usize.MAX - 2 }
    ensures { result ≡ token_hint text.now from byte }
{
    let after = byte_at(text, from + 1);
    if byte < 0x80 {
        ascii_hint(byte_at(text, from.saturating_sub(1)), byte, after)
    } else {
        Some(foreign_hint(byte, after, byte_at(text, from + 2)))
    }
}

fn foreign_hint(byte: u8, second: Option<u8>, third: Option<u8>) -> Hint
    ensures { result ≡ foreign_hint byte second third }
{
    match (second, third) {
        (Some(second), Some(third)) => foreign_of(byte, second, third),
        _ => Hint::NotAscii,
    }
}

fn foreign_of(byte: u8, second: u8, third: u8) -> Hint
    ensures { result ≡ foreign_of byte second third }
{
    if byte == 0xEF && second == 0xBB && third == 0xBF {
        Hint::ByteOrderMark
    } else if byte == 0xE2 && second == 0x80 && 0x98 <= third && third <= 0x9F {
        Hint::SmartQuote
    } else {
        Hint::NotAscii
    }
}

fn ascii_hint(before: Option<u8>, byte: u8, after: Option<u8>) -> Option<Hint>
    ensures { result ≡ ascii_hint before byte after }
{
    if byte == b'.' {
        return is_digit(before).then_some(Hint::Point);
    }
    if begins_comment(byte, after) {
        Some(Hint::Comment)
    } else {
        mark_hint(byte)
    }
}

fn begins_comment(byte: u8, after: Option<u8>) -> bool
    ensures { result ≡ begins_comment byte after }
{
    match after {
        Some(after) => {
            byte == b'/' && (after == b'/' || after == b'*') || byte == b'-' && after == b'-'
        }
        None => false,
    }
}

fn is_digit(byte: Option<u8>) -> bool
    ensures { result ≡ is_digit byte }
{
    match byte {
        Some(byte) => byte.is_ascii_digit(),
        None => false,
    }
}

fn mark_hint(byte: u8) -> Option<Hint>
    ensures { result ≡ mark_hint byte }
{
    match byte {
        b'\'' => Some(Hint::SingleQuote),
        b'"' => Some(Hint::BadString),
        b'<' | b'>' | b'=' | b'!' => Some(Hint::Comparison),
        b'+' | b'-' | b'*' | b'/' | b'%' => Some(Hint::Arithmetic),
        b'&' | b'|' => Some(Hint::Connective),
        b'[' | b']' | b'{' | b'}' | b';' | b':' => Some(Hint::Mark),
        _ => None,
    }
}

// The hint for a token that may not stand where it does, by its first byte.
fn piece_hint(byte: u8) -> Option<Hint>
    ensures { result ≡ piece_hint byte }
{
    match byte {
        b'(' => Some(Hint::NoHead),
        b')' | b',' => Some(Hint::MissingTerm),
        b'+' | b'-' => Some(Hint::Arithmetic),
        _ => Some(Hint::MissingComma),
    }
}

// The hint for a call whose operands or values are of the wrong types.
fn type_hint(head: &[u8]) -> Option<Hint>
    ensures { result ≡ type_hint head.now }
{
    if head == b"or".as_slice() {
        return Some(Hint::TwoTypes);
    }
    if head == b"iter".as_slice() {
        return Some(Hint::Iterated);
    }
    let takes_values = head == b"split".as_slice()
        || head == b"combine".as_slice()
        || head == b"apply".as_slice();
    takes_values.then_some(Hint::OtherType)
}
