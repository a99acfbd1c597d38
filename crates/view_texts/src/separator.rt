//! What stands between parts and entries.
ghost use Rattle.std.specs.Prelude.{◌≡◌, ◌++◌, OnOk};
ghost use Rattle.view_texts.specs.Commas.{comma_at};

use std::alloc::AllocError;

/// A comma stands before each but the first.
pub(crate) fn push_comma(place: usize, text: &mut Vec<u8>) -> Result<(), AllocError>
    ensures { OnOk result (text.new.items ≡ text.old.items ++ comma_at place) }
{
    if place == 0 {
        return Ok(());
    }
    text.extend_from_slice(b",")
}
