//! Texts as a person types them.
ghost use Rattle.std.specs.Prelude.{◌≡◌, ◌++◌, OnOk};
ghost use Rattle.std.specs.List.{flat_map, list_any};
ghost use Rattle.item_lines.specs.Lines.{byte_text, is_bare, is_delimiter, typed_text};

use std::alloc::AllocError;

/// Appends a text, in quotes if it would not be read without them.
pub(crate) fn push_text(text: &[u8], line: &mut Vec<u8>) -> Result<(), AllocError>
    ensures { OnOk result (line.new.items ≡ line.old.items ++ typed_text text.now) }
{
    if is_bare(text) {
        return line.extend_from_slice(text);
    }
    line.extend_from_slice(b"\"")?;
    push_doubled(text, line)?;
    line.extend_from_slice(b"\"")
}

fn is_bare(text: &[u8]) -> bool
    ensures { result ≡ is_bare text.now }
{
    match text {
        // A byte order mark begins with this byte.
        [first, ..] => *first != 239 && !has_delimiter(text),
        [] => false,
    }
}

fn has_delimiter(text: &[u8]) -> bool
    ensures { result ≡ list_any is_delimiter text.now }
{
    text.iter().any(|byte| *byte == b',' || *byte == b'"')
}

// Appends the text with each of its quotes doubled.
fn push_doubled(text: &[u8], line: &mut Vec<u8>) -> Result<(), AllocError>
    ensures { OnOk result (line.new.items ≡ line.old.items ++ flat_map byte_text text.now) }
{
    'bytes: for &byte in text {
        push_byte(byte, line)?;
    }
    Ok(())
}

fn push_byte(byte: u8, line: &mut Vec<u8>) -> Result<(), AllocError>
    ensures { OnOk result (line.new.items ≡ line.old.items ++ byte_text byte) }
{
    if byte == b'"' {
        return line.extend_from_slice(b"\"\"");
    }
    line.extend_from_slice(&[byte])
}
