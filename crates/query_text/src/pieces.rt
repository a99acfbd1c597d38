//! The pieces of texts: calls, numbers and strings.
ghost use Rattle.std.specs.Prelude.{◌≡◌, ◌<◌, ◌++◌, codes, OnOk};
ghost use Rattle.std.specs.Fmt.{signed_decimal};
ghost use Rattle.query_parser.specs.Printing.{byte_text, hex_digit, string_text};
ghost use Rattle.value_ops.specs.Texts.{IsText};

use itoa::Buffer;
use std::alloc::AllocError;

/// Appends the word of a call and its parenthesis.
pub(crate) fn open(word: &[u8], text: &mut Vec<u8>) -> Result<(), AllocError>
    ensures { OnOk result (text.new.items ≡ text.old.items ++ (word.now ++ codes "(")) }
{
    text.extend_from_slice(word)?;
    text.extend_from_slice(b"(")
}

/// Appends what stands between two arguments.
pub(crate) fn comma(text: &mut Vec<u8>) -> Result<(), AllocError>
    ensures { OnOk result (text.new.items ≡ text.old.items ++ codes ", ") }
{
    text.extend_from_slice(b", ")
}

/// Ends a call.
pub(crate) fn close(text: &mut Vec<u8>) -> Result<(), AllocError>
    ensures { OnOk result (text.new.items ≡ text.old.items ++ codes ")") }
{
    text.extend_from_slice(b")")
}

pub(crate) fn write_number(number: i64, text: &mut Vec<u8>) -> Result<(), AllocError>
    ensures { OnOk result (text.new.items ≡ text.old.items ++ signed_decimal number) }
{
    text.extend_from_slice(Buffer::new().format(number).as_bytes())
}

/// Appends the string with its quotes.
pub(crate) fn write_string(bytes: &[u8], text: &mut Vec<u8>) -> Result<(), AllocError>
    ensures text { OnOk result (text.new.items ≡ text.old.items ++ string_text bytes.now) }
    ensures bytes { IsText bytes.now }
{
    text.extend_from_slice(b"\"")?;
    'bytes: for &byte in bytes {
        write_byte(byte, text)?;
    }
    text.extend_from_slice(b"\"")
}

fn write_byte(byte: u8, text: &mut Vec<u8>) -> Result<(), AllocError>
    ensures { OnOk result (text.new.items ≡ text.old.items ++ byte_text byte) }
{
    if matches!(byte, b' '..=b'~') && byte != b'"' && byte != b'\\' {
        text.extend_from_slice(&[byte])
    } else {
        text.extend_from_slice(&[b'\\', b'x', hex_digit(byte / 16), hex_digit(byte % 16)])
    }
}

fn hex_digit(digit: u8) -> u8
    requires { digit < 16 }
    ensures { result ≡ hex_digit digit }
{
    if digit < 10 {
        b'0' + digit
    } else {
        b'A' + (digit - 10)
    }
}
