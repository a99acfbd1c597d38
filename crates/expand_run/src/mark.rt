//! A place of a text as it is shown to a person.
ghost use Rattle.std.specs.Prelude.{◌≡◌, IfOk};
ghost use Rattle.expand_run.specs.Marks.{mark_text, position_line};

use language_base::{Bytes, Span};
use place_in_text::{Position, locate, push_marked_line};
use std::alloc::{AllocError, Global};

/// The line and the column, and the line with the marks under it.
pub(crate) fn mark_text(alloc: Global, text: &[u8], place: Span) -> Result<Bytes, AllocError>
    ensures { IfOk result (λ lines. lines ≡ mark_text text.now place) }
{
    let Span { from, to } = place;
    let mut lines = position_line(alloc, locate(text, from as usize))?;
    push_marked_line(alloc, text, from as usize, to as usize, &mut lines)?;
    Ok(Bytes::from_vec(lines))
}

fn position_line(alloc: Global, position: Position) -> Result<Vec<u8>, AllocError>
    ensures { IfOk result (λ line. line.items ≡ position_line position.line position.column) }
{
    let Position { line, column } = position;
    let line = format!(in alloc; "{line}:{column}\n")?;
    Ok(line.into_bytes())
}
