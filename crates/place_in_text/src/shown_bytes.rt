//! The bytes of a line as they are shown.
ghost use Rattle.std.specs.Prelude.{◌≡◌, ◌++◌, OnOk, map, replicate};
ghost use Rattle.place_in_text.specs.Shown.{shown_byte};

use std::alloc::{AllocError, Global};

// A byte that is printed in ASCII is shown as it is, a tab as a space, and any other as `?`.
fn shown_byte(byte: u8) -> u8
    ensures { result ≡ shown_byte byte }
{
    match byte {
        b' '..=b'~' => byte,
        b'\t' => b' ',
        _ => b'?',
    }
}

/// Appends the bytes as they are shown.
pub(crate) fn push_shown(bytes: &[u8], text: &mut Vec<u8>) -> Result<(), AllocError>
    ensures { OnOk result (text.new.items ≡ text.old.items ++ map shown_byte bytes.now) }
{
    'bytes: for &byte in bytes {
        text.push(shown_byte(byte))?;
    }
    Ok(())
}

/// Appends the byte as often as the count says.
pub(crate) fn push_times(
    alloc: Global,
    byte: u8,
    count: usize,
    text: &mut Vec<u8>,
) -> Result<(), AllocError>
    ensures { OnOk result (text.new.items ≡ text.old.items ++ replicate count byte) }
{
    text.extend_from_slice(&vec![in alloc; byte; count]?)
}
