//! The text that says by which lines two queries differ.
ghost use Rattle.std.specs.Prelude.{◌≡◌, ◌++◌, OnOk};
ghost use Rattle.std.specs.List.{flat_map};
ghost use Rattle.separating_word.specs.SeparationText.{said_of, separation_text, shown_line};

use crate::{Separation, Side};
use language_base::Bytes;
use std::alloc::AllocError;

/// Appends which query alone has a value, and the lines.
pub fn push_separation(found: &Separation, shown: &mut Vec<u8>) -> Result<(), AllocError>
    ensures { OnOk result (shown.new.items
        ≡ shown.old.items ++ separation_text found.now.side found.now.lines.items) }
{
    shown.extend_from_slice(said_of(found.side, &found.lines).as_bytes())?;
    push_lines(&found.lines, shown)
}

#[tactic(auto, unfolding(crate::specs::SeparationText::said_of))]
fn said_of(side: Side, lines: &[Bytes]) -> &'static str
    ensures { result.now ≡ said_of side lines.now }
{
    match (side, lines) {
        (Side::Left, []) => "Only the left operand has a value on no items at all.\n",
        (Side::Right, []) => "Only the right operand has a value on no items at all.\n",
        (Side::Left, _) => "Only the left operand has a value on these items:\n",
        (Side::Right, _) => "Only the right operand has a value on these items:\n",
    }
}

fn push_lines(lines: &[Bytes], shown: &mut Vec<u8>) -> Result<(), AllocError>
    ensures { OnOk result (shown.new.items ≡ shown.old.items ++ flat_map shown_line lines.now) }
{
    'lines: for line in lines {
        push_line(line.as_slice(), shown)?;
    }
    Ok(())
}

fn push_line(line: &[u8], shown: &mut Vec<u8>) -> Result<(), AllocError>
    ensures { OnOk result (shown.new.items ≡ shown.old.items ++ shown_line line.now) }
{
    shown.extend_from_slice(b"    ")?;
    shown.extend_from_slice(line)?;
    shown.extend_from_slice(b"\n")
}
