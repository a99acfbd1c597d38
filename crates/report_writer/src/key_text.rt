//! The text of a key.
ghost use Rattle.std.specs.Io.{StartsWith};
ghost use Rattle.std.specs.Prelude.{◌≡◌, ◌++◌, ◌<◌, OnOk, OnErr};
ghost use Rattle.report_writer.specs.Texts.{byte_text, hex_digit, key_text};

use std::alloc::AllocError;

/// Appends the key with its quotes.
#[tactic(auto, using(crate::proofs::Begins::begins))]
pub(crate) fn push_key(key: &[u8], text: &mut Vec<u8>) -> Result<(), AllocError>
    ensures ok { OnOk result (text.new.items ≡ text.old.items ++ key_text key.now) }
    ensures err { OnErr result (StartsWith text.new.items text.old.items) }
{
    text.extend_from_slice(b"\"")?;
    'bytes: for &byte in key {
        push_byte(byte, text)?;
    }
    text.extend_from_slice(b"\"")
}

fn push_byte(byte: u8, text: &mut Vec<u8>) -> Result<(), AllocError>
    ensures ok { OnOk result (text.new.items ≡ text.old.items ++ byte_text byte) }
    ensures err { OnErr result (StartsWith text.new.items text.old.items) }
{
    if matches!(byte, b' '..=b'~') && byte != b'"' && byte != b'\\' {
        text.extend_from_slice(&[byte])
    } else {
        text.extend_from_slice(&[b'\\', b'x', hex_digit(byte / 16), hex_digit(byte % 16)])
    }
}

fn hex_digit(digit: u8) -> u8
    requires { digit < 16 }
    ensures { result ≡ hex_digit digit }
{
    if digit < 10 {
        b'0' + digit
    } else {
        b'A' + (digit - 10)
    }
}
