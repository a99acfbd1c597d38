//! Bytes as they are spelled in tables: line ends and tabs as `\n`, `\r` and `\t`, and the
//! backslash and other bytes that are not printed as `\xNN`.

use std::alloc::{AllocError, Global};

/// The bytes that are spelled. A backslash that spells nothing stands for itself.
pub(crate) fn bytes_of(alloc: Global, spelled: &str) -> Result<Vec<u8>, AllocError> {
    let mut bytes = Vec::new(alloc);
    for (index, piece) in spelled.split('\\').enumerate() {
        if index == 0 {
            bytes.extend_from_slice(piece.as_bytes())?;
        } else {
            push_piece(&mut bytes, piece.as_bytes())?;
        }
    }
    Ok(bytes)
}

/// Appends what a backslash and the bytes after it spell.
fn push_piece(bytes: &mut Vec<u8>, piece: &[u8]) -> Result<(), AllocError> {
    match piece {
        [b'n', rest @ ..] => push_both(bytes, b'\n', rest),
        [b'r', rest @ ..] => push_both(bytes, b'\r', rest),
        [b't', rest @ ..] => push_both(bytes, b'\t', rest),
        [b'x', high, low, rest @ ..] => {
            push_both(bytes, digit_of(*high) << 4 | digit_of(*low), rest)
        }
        plain => push_both(bytes, b'\\', plain),
    }
}

fn push_both(bytes: &mut Vec<u8>, first: u8, rest: &[u8]) -> Result<(), AllocError> {
    bytes.push(first)?;
    bytes.extend_from_slice(rest)
}

fn digit_of(byte: u8) -> u8 {
    match byte {
        b'0'..=b'9' => byte - b'0',
        b'A'..=b'F' => byte - b'A' + 10,
        _ => 0,
    }
}

/// Spells the bytes.
pub fn push_spelled(text: &mut String, bytes: &[u8]) -> Result<(), AllocError> {
    for byte in bytes {
        push_spelled_byte(text, *byte)?;
    }
    Ok(())
}

fn push_spelled_byte(text: &mut String, byte: u8) -> Result<(), AllocError> {
    match byte {
        b'\n' => text.push_str("\\n"),
        b'\r' => text.push_str("\\r"),
        b'\t' => text.push_str("\\t"),
        b'\\' | 0..0x20 | 0x7F.. => write!(text, "\\x{byte:02X}"),
        _ => text.push(char::from(byte)),
    }
}
