//! The parts of a string.
ghost use Rattle.std.specs.Prelude.{◌≡◌};
ghost use Rattle.query_tokens.specs.StringParts.{code_of, escape_of, hex_of, is_plain, part_of};
ghost use Rattle.query_tokens.specs.StringParts.{IsClosing};

fn hex_value(digit: u8) -> Option<u8>
    ensures { result ≡ hex_of digit }
{
    let value = char::from(digit).to_digit(16)?;
    Some(value as u8)
}

fn code_at(text: &[u8]) -> Option<u8>
    ensures { result ≡ code_of text.now }
{
    let (&high, text) = text.split_first()?;
    let (&low, _) = text.split_first()?;
    Some(16 * hex_value(high)? + hex_value(low)?)
}

fn escape_at(text: &[u8]) -> Option<(u8, usize)>
    ensures { result ≡ escape_of text.now }
{
    let (&second, digits) = text.split_first()?;
    if second == b'"' || second == b'\\' {
        return Some((second, 2));
    }
    if second != b'x' {
        return None;
    }
    Some((code_at(digits)?, 4))
}

fn is_plain(byte: u8) -> bool
    ensures { result ≡ is_plain byte }
{
    (b' ' <= byte && byte <= b'~' && byte != b'"' && byte != b'\\') || 0x80 <= byte
}

/// The byte for which the part at the front stands, and the length of the part.
pub(crate) fn part_at(text: &[u8]) -> Option<(u8, usize)>
    ensures { result ≡ part_of text.now }
{
    let (&first, rest) = text.split_first()?;
    if first == b'\\' {
        return escape_at(rest);
    }
    is_plain(first).then_some((first, 1))
}

/// The length of the parts at the front and of the quote after them.
pub(crate) fn closing_len(text: &[u8]) -> Option<usize>
    ensures { IsClosing text.now result }
{
    let mut len = 0;
    'parts: while let Some((_, part)) = part_at(&text[len..]) {
        len += part;
    }
    match text.get(len) {
        Some(b'"') => Some(len + 1),
        _ => None,
    }
}
