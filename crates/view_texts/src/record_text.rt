//! The text of a record.
ghost use Rattle.std.specs.Prelude.{◌≡◌, ◌<◌, ◌+◌, ◌++◌, List, ℕ, OnOk, codes, length, take};
ghost use Rattle.std.specs.List.{join_by};
ghost use Rattle.view_texts.specs.Values.{record_text, scalar_text};

use crate::notation::Notation;
use crate::scalar_text::push_scalar;
use crate::separator::push_comma;
use std::alloc::AllocError;
use value_ops::Rec;

/// Appends the parts in their order.
pub(crate) fn push_record(
    notation: Notation,
    digits: u8,
    parts: &Rec,
    text: &mut Vec<u8>,
) -> Result<(), AllocError>
    ensures { OnOk result (
        text.new.items ≡ text.old.items ++ record_text notation digits parts.now) }
{
    text.push(notation.record_start())?;
    'places: for place in 0..parts.len() {
        push_part(notation, digits, parts, place, text)?;
    }
    text.extend_from_slice(&[notation.record_end()])
}

// Appends the part at a place after the text of those before it.
fn push_part(
    notation: Notation,
    digits: u8,
    parts: &Rec,
    place: usize,
    text: &mut Vec<u8>,
) -> Result<(), AllocError>
    requires { place < length parts.now }
    ensures { OnOk result ((front : List ℕ) →
        text.old.items
        ≡ front ++ join_by (scalar_text notation digits) (codes ",") (take place parts.now)
        → text.new.items
        ≡ front ++ join_by (scalar_text notation digits) (codes ",")
        (take (place + 1) parts.now)) }
{
    push_comma(place, text)?;
    push_scalar(notation, digits, parts.part(place), text)
}
