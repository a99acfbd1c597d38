//! The line that the command writes.
ghost use Rattle.std.specs.Option.{option_copied};
ghost use Rattle.std.specs.Prelude.{◌≡◌, IfOk, Some};
ghost use Rattle.dead_lines.specs.DeadTexts.{dead_text, unknown_text};

use crate::course::DeadLine;
use language_base::Bytes;
use std::alloc::{AllocError, Global};

/// After which line no further items lead to a value.
pub(crate) fn dead_text(alloc: Global, dead: Option<&DeadLine>) -> Result<Bytes, AllocError>
    ensures { IfOk result (λ text. text ≡ dead_text (option_copied dead.entry)) }
{
    match dead {
        Some(dead) => line_text(alloc, dead),
        None => Bytes::from_slice(alloc, b"alive\n"),
    }
}

fn line_text(alloc: Global, dead: &DeadLine) -> Result<Bytes, AllocError>
    ensures { IfOk result (λ text. text ≡ dead_text (Some dead.now)) }
{
    let number = dead.number;
    let mut text = format!(in alloc; "{number}:")?.into_bytes();
    text.extend_from_slice(dead.line.as_slice())?;
    text.push(b'\n')?;
    Ok(Bytes::from_vec(text))
}

/// That this is not known.
pub(crate) fn unknown_text(alloc: Global) -> Result<Bytes, AllocError>
    ensures { IfOk result (λ text. text ≡ unknown_text) }
{
    Bytes::from_slice(alloc, b"unknown\n")
}
