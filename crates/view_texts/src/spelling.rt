//! Bytes spelled in UTF-8.
ghost use Rattle.std.specs.Prelude.{◌≡◌, ◌++◌, OnOk};
ghost use Rattle.view_texts.specs.Spelled.{ascii_text, first_text, is_control, spelled, stray_text};

use crate::hex::push_hex;
use crate::utf8::following;
use std::alloc::AllocError;

/// Where bytes are spelled.
#[derive(Clone, Copy, Debug, PartialEq, Eq)]
pub enum Spelling {
    /// In a string of JSON.
    Json,
    /// Where a person reads them.
    Terminal,
}

/// Appends characters as they are, but for control characters and, in JSON, quotes and backslashes.
/// A byte that belongs to no character is written by its two digits.
pub fn push_spelled(spelling: Spelling, bytes: &[u8], text: &mut Vec<u8>) -> Result<(), AllocError>
    ensures { OnOk result (text.new.items ≡ text.old.items ++ spelled spelling bytes.now) }
{
    // How many bytes of a character that has begun are still to come.
    let mut left = 0;
    'bytes: for (place, &byte) in bytes.iter().enumerate() {
        if left > 0 {
            text.push(byte)?;
            left -= 1;
        } else {
            let more = following(byte, &bytes[place + 1..]);
            push_first(spelling, byte, more, text)?;
            left = more.unwrap_or(0);
        }
    }
    Ok(())
}

// Appends the first byte of a character that has so many after it, or a byte of none.
fn push_first(
    spelling: Spelling,
    byte: u8,
    more: Option<usize>,
    text: &mut Vec<u8>,
) -> Result<(), AllocError>
    ensures { OnOk result (text.new.items ≡ text.old.items ++ first_text spelling byte more) }
{
    match more {
        None => push_stray(spelling, byte, text),
        Some(0) => push_ascii(spelling, byte, text),
        Some(_) => text.extend_from_slice(&[byte]),
    }
}

fn push_ascii(spelling: Spelling, byte: u8, text: &mut Vec<u8>) -> Result<(), AllocError>
    ensures { OnOk result (text.new.items ≡ text.old.items ++ ascii_text spelling byte) }
{
    match spelling {
        Spelling::Json if byte == b'"' || byte == b'\\' => text.extend_from_slice(&[b'\\', byte]),
        Spelling::Json if is_control(byte) => {
            text.extend_from_slice(b"\\u00")?;
            push_hex(byte, text)
        }
        Spelling::Terminal if is_control(byte) => {
            text.extend_from_slice(b"\\x")?;
            push_hex(byte, text)
        }
        _ => text.extend_from_slice(&[byte]),
    }
}

fn push_stray(spelling: Spelling, byte: u8, text: &mut Vec<u8>) -> Result<(), AllocError>
    ensures { OnOk result (text.new.items ≡ text.old.items ++ stray_text spelling byte) }
{
    match spelling {
        Spelling::Json => text.extend_from_slice(b"\\\\x")?,
        Spelling::Terminal => text.extend_from_slice(b"\\x")?,
    }
    push_hex(byte, text)
}

fn is_control(byte: u8) -> bool
    ensures { result ≡ is_control byte }
{
    byte < 32 || byte == 127
}
