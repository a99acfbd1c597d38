//! The text of a table.
ghost use Rattle.std.specs.Prelude.{◌≡◌, ◌<◌, ◌+◌, ◌++◌, List, ℕ, OnOk, codes, length, take};
ghost use Rattle.std.specs.List.{join_by};
ghost use Rattle.view_texts.specs.Values.{entry_text, table_text};

use crate::key_text::push_key;
use crate::notation::Notation;
use crate::scalar_text::push_scalar;
use crate::separator::push_comma;
use std::alloc::AllocError;
use value_ops::Table;

/// Appends the entries in braces, in their order.
pub(crate) fn push_table(
    notation: Notation,
    digits: u8,
    table: &Table,
    text: &mut Vec<u8>,
) -> Result<(), AllocError>
    ensures { OnOk result (
        text.new.items ≡ text.old.items ++ table_text notation digits table.now) }
{
    text.push(b'{')?;
    'places: for place in 0..table.len() {
        push_entry(notation, digits, table, place, text)?;
    }
    text.extend_from_slice(b"}")
}

// Appends the entry at a place after the text of those before it.
fn push_entry(
    notation: Notation,
    digits: u8,
    table: &Table,
    place: usize,
    text: &mut Vec<u8>,
) -> Result<(), AllocError>
    requires { place < length table.now }
    ensures { OnOk result ((front : List ℕ) →
        text.old.items
        ≡ front ++ join_by (entry_text notation digits) (codes ",") (take place table.now)
        → text.new.items
        ≡ front ++ join_by (entry_text notation digits) (codes ",")
        (take (place + 1) table.now)) }
{
    push_comma(place, text)?;
    push_key(notation, table.key(place), text)?;
    text.push(b':')?;
    push_scalar(notation, digits, table.value(place), text)
}
