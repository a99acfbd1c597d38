//! A part of a query text as its main query.
ghost use Rattle.std.specs.Prelude.{◌≡◌, IfOk};
ghost use Rattle.query_syntax.specs.Plain.{plain_program};
ghost use Rattle.explain_run.specs.Apart.{alone};

use language_base::{Bytes, Span};
use place_in_text::bytes_between;
use query_syntax::Program;
use std::alloc::{AllocError, Global};

/// The text with what stands at the place as its main query.
pub(crate) fn alone(
    alloc: Global,
    text: &[u8],
    program: &Program,
    place: Span,
) -> Result<Bytes, AllocError>
    ensures { IfOk result (λ whole. whole ≡ alone text.now (plain_program program.now) place) }
{
    let main = program.main.query.span();
    let mut whole = Vec::from_slice(alloc, bytes_between(text, 0, main.from as usize))?;
    whole.extend_from_slice(bytes_between(text, place.from as usize, place.to as usize))?;
    whole.extend_from_slice(bytes_between(text, main.to as usize, text.len()))?;
    Ok(Bytes::from_vec(whole))
}
