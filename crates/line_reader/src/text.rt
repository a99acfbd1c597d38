//! The text of a field.
ghost use Rattle.std.specs.Prelude.{◌≡◌, [], ◌∷◌, IfOk};
ghost use Rattle.std.specs.Option.{option_copied};
ghost use Rattle.line_reader.specs.CutLines.{texts_at, texts_in, texts_of};
ghost use Rattle.line_reader.specs.Texts.{bytes_of};
ghost use Rattle.line_reader.specs.declared.quote_state.QuoteState.TheVariants.{Quoted};

use crate::cut::cut_at;
use std::alloc::{AllocError, Global};

/// A part of the line, or a copy of one without the quotes that do not belong to the text.
#[derive(Drop)]
pub(crate) enum Text<'l> {
    Part(&'l [u8]),
    Copy(Vec<u8>),
}

impl Text<'_> {
    pub(crate) fn as_slice(&self) -> &[u8]
        ensures { result.now ≡ bytes_of self.now }
    {
        match self {
            Text::Part(bytes) => bytes,
            Text::Copy(bytes) => bytes,
        }
    }
}

/// The first text of the bytes, and what is left of them after its comma, if there is one.
pub(crate) fn first_text(
    alloc: Global,
    bytes: &[u8],
) -> Result<(Text<'_>, Option<&[u8]>), AllocError>
    ensures { IfOk result (λ cut.
        texts_in bytes.now ≡ bytes_of cut.0 ∷ texts_of (option_copied cut.1)) }
{
    if bytes.starts_with(b"\"") {
        return quoted_text(alloc, &bytes[1..]);
    }
    let (text, rest) = cut_at(b',', bytes);
    Ok((Text::Part(text), rest))
}

// The same of bytes after a quote that opens a field.
fn quoted_text(alloc: Global, bytes: &[u8]) -> Result<(Text<'_>, Option<&[u8]>), AllocError>
    ensures { IfOk result (λ cut.
        texts_at Quoted [] bytes.now ≡ bytes_of cut.0 ∷ texts_of (option_copied cut.1)) }
{
    let (text, after) = cut_at(b'"', bytes);
    let Some(after) = after else {
        return Ok((Text::Part(text), None));
    };
    if after.is_empty() {
        return Ok((Text::Part(text), None));
    }
    if after.starts_with(b",") {
        return Ok((Text::Part(text), Some(&after[1..])));
    }
    copied_text(alloc, bytes)
}

// The same, where more of the field stands after a quote in it.
fn copied_text(alloc: Global, bytes: &[u8]) -> Result<(Text<'_>, Option<&[u8]>), AllocError>
    ensures { IfOk result (λ cut.
        texts_at Quoted [] bytes.now ≡ bytes_of cut.0 ∷ texts_of (option_copied cut.1)) }
{
    let mut text = Vec::with_capacity(alloc, bytes.len())?;
    let mut rest = bytes;
    'parts: loop {
        let (part, after) = cut_at(b'"', rest);
        text.extend_from_slice(part)?;
        let Some(after) = after else {
            return Ok((Text::Copy(text), None));
        };
        if !after.starts_with(b"\"") {
            let (tail, after) = cut_at(b',', after);
            text.extend_from_slice(tail)?;
            return Ok((Text::Copy(text), after));
        }
        text.push(b'"')?;
        rest = &after[1..];
    }
}
