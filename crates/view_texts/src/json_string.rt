//! Strings of JSON.
ghost use Rattle.std.specs.Prelude.{◌≡◌, ◌++◌, OnOk};
ghost use Rattle.view_texts.specs.Spelled.{json_string};

use crate::spelling::{Spelling, push_spelled};
use std::alloc::AllocError;

/// Appends the bytes as a string, with its quotes.
pub fn push_json_string(bytes: &[u8], text: &mut Vec<u8>) -> Result<(), AllocError>
    ensures { OnOk result (text.new.items ≡ text.old.items ++ json_string bytes.now) }
{
    text.push(b'"')?;
    push_spelled(Spelling::Json, bytes, text)?;
    text.extend_from_slice(b"\"")
}
