//! A place in the query's text, as it is marked.
ghost use Rattle.std.specs.Prelude.{◌≡◌, ◌++◌, OnOk};
ghost use Rattle.hints_run.specs.MarkedPlaces.{marked};

use language_base::Span;
use place_in_text::push_marked_line;
use std::alloc::{AllocError, Global};

/// Appends the line of the place with marks under it.
pub fn push_marked(
    alloc: Global,
    text: &[u8],
    span: Span,
    shown: &mut Vec<u8>,
) -> Result<(), AllocError>
    ensures { OnOk result (shown.new.items ≡ shown.old.items ++ marked text.now span) }
{
    push_marked_line(alloc, text, span.from as usize, span.to as usize, shown)
}
