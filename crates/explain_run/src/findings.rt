//! The example that comes after an explanation.
ghost use Rattle.std.specs.Prelude.{◌≡◌, ◌++◌, OnOk};
ghost use Rattle.explain_run.specs.Appended.{found_text};

use language_base::Bytes;
use separating_word::{Separation, push_separation};
use std::alloc::AllocError;

/// The words by which the query breaks its rule, as they are shown after an explanation.
#[derive(Drop)]
pub(crate) enum Found {
    Nothing,
    /// Lines that distinguish the operands of a combination.
    Apart(Separation),
    /// A word with two readings, drawn.
    Readings(Bytes),
}

/// Appends what was found.
pub(crate) fn push_found(found: &Found, shown: &mut Vec<u8>) -> Result<(), AllocError>
    ensures { OnOk result (shown.new.items ≡ shown.old.items ++ found_text found.now) }
{
    match found {
        Found::Nothing => Ok(()),
        Found::Apart(separation) => push_separation(separation, shown),
        Found::Readings(drawing) => shown.extend_from_slice(drawing.as_slice()),
    }
}
