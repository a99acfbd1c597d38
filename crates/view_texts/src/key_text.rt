//! The text of a key.
ghost use Rattle.std.specs.Prelude.{◌≡◌, ◌++◌, OnOk};
ghost use Rattle.report_writer.specs.Texts.{byte_text};
ghost use Rattle.report_writer.specs.Texts as run;
ghost use Rattle.view_texts.specs.Values.{key_text};

use crate::hex::push_hex;
use crate::json_string::push_json_string;
use crate::notation::Notation;
use std::alloc::AllocError;

pub(crate) fn push_key(notation: Notation, key: &[u8], text: &mut Vec<u8>) -> Result<(), AllocError>
    ensures { OnOk result (text.new.items ≡ text.old.items ++ key_text notation key.now) }
{
    match notation {
        Notation::Plain => push_plain_key(key, text),
        Notation::Json => push_json_string(key, text),
    }
}

// Appends the key with its quotes, as a run does.
fn push_plain_key(key: &[u8], text: &mut Vec<u8>) -> Result<(), AllocError>
    ensures { OnOk result (text.new.items ≡ text.old.items ++ run.key_text key.now) }
{
    text.push(b'"')?;
    'bytes: for &byte in key {
        push_byte(byte, text)?;
    }
    text.extend_from_slice(b"\"")
}

fn push_byte(byte: u8, text: &mut Vec<u8>) -> Result<(), AllocError>
    ensures { OnOk result (text.new.items ≡ text.old.items ++ byte_text byte) }
{
    if matches!(byte, b' '..=b'~') && byte != b'"' && byte != b'\\' {
        return text.extend_from_slice(&[byte]);
    }
    text.extend_from_slice(b"\\x")?;
    push_hex(byte, text)
}
