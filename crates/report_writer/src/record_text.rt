//! The text of a record.
ghost use Rattle.std.specs.Io.{StartsWith};
ghost use Rattle.std.specs.Prelude.{◌≡◌, ◌<◌, ◌+◌, ◌++◌, List, ℕ, OnOk, OnErr, length, take};
ghost use Rattle.report_writer.specs.Texts.{parts_text, record_text};

use crate::answer::push_scalar;
use crate::table_text::push_comma;
use std::alloc::AllocError;
use value_ops::Rec;

/// Appends the parts between parentheses, in their order.
#[tactic(auto, using(crate::proofs::Begins::begins))]
pub(crate) fn push_record(parts: &Rec, text: &mut Vec<u8>) -> Result<(), AllocError>
    ensures ok { OnOk result (text.new.items ≡ text.old.items ++ record_text parts.now) }
    ensures err { OnErr result (StartsWith text.new.items text.old.items) }
{
    text.extend_from_slice(b"(")?;
    'places: for place in 0..parts.len() {
        push_part(parts, place, text)?;
    }
    text.extend_from_slice(b")")
}

// Appends the part at a place after the text of those before it.
#[tactic(auto, using(crate::proofs::Begins::begins))]
fn push_part(parts: &Rec, place: usize, text: &mut Vec<u8>) -> Result<(), AllocError>
    requires { place < length parts.now }
    ensures ok { OnOk result ((front : List ℕ) →
        text.old.items ≡ front ++ parts_text (take place parts.now)
        → text.new.items ≡ front ++ parts_text (take (place + 1) parts.now)) }
    ensures err { OnErr result (StartsWith text.new.items text.old.items) }
{
    push_comma(place, text)?;
    push_scalar(parts.part(place), text)
}
