//! The text of a table.
ghost use Rattle.std.specs.Io.{StartsWith};
ghost use Rattle.std.specs.Prelude.{◌≡◌, ◌<◌, ◌+◌, ◌++◌, List, ℕ, OnOk, OnErr, length, take};
ghost use Rattle.report_writer.specs.Commas.{comma_at};
ghost use Rattle.report_writer.specs.Texts.{entries_text, table_text};

use crate::answer::push_scalar;
use crate::key_text::push_key;
use std::alloc::AllocError;
use value_ops::Table;

/// Appends the entries in braces, in their order.
#[tactic(auto, using(crate::proofs::Begins::begins))]
pub(crate) fn push_table(table: &Table, text: &mut Vec<u8>) -> Result<(), AllocError>
    ensures ok { OnOk result (text.new.items ≡ text.old.items ++ table_text table.now) }
    ensures err { OnErr result (StartsWith text.new.items text.old.items) }
{
    text.extend_from_slice(b"{")?;
    'places: for place in 0..table.len() {
        push_entry(table, place, text)?;
    }
    text.extend_from_slice(b"}")
}

// Appends the entry at a place after the text of those before it.
#[tactic(auto, using(crate::proofs::Begins::begins))]
fn push_entry(table: &Table, place: usize, text: &mut Vec<u8>) -> Result<(), AllocError>
    requires { place < length table.now }
    ensures ok { OnOk result ((front : List ℕ) →
        text.old.items ≡ front ++ entries_text (take place table.now)
        → text.new.items ≡ front ++ entries_text (take (place + 1) table.now)) }
    ensures err { OnErr result (StartsWith text.new.items text.old.items) }
{
    push_comma(place, text)?;
    push_key(table.key(place), text)?;
    text.extend_from_slice(b":")?;
    push_scalar(table.value(place), text)
}

// A comma stands before each entry but the first.
pub(crate) fn push_comma(place: usize, text: &mut Vec<u8>) -> Result<(), AllocError>
    ensures ok { OnOk result (text.new.items ≡ text.old.items ++ comma_at place) }
    ensures err { OnErr result (StartsWith text.new.items text.old.items) }
{
    if place == 0 {
        return Ok(());
    }
    text.extend_from_slice(b",")
}
