//! The cells of a row.
ghost use Rattle.std.specs.Prelude.{◌≡◌, ◌++◌, OnOk, decimal};
ghost use Rattle.drawn_example.specs.Drawings.{cell, operand};

use itoa::Buffer;
use std::alloc::AllocError;

const BLANKS: &str = "         ";

/// Appends which operand reads a piece.
pub(crate) fn push_operand(piece: usize, shown: &mut Vec<u8>) -> Result<(), AllocError>
    ensures { OnOk result (shown.new.items ≡ shown.old.items ++ cell (operand piece)) }
{
    push_cell(operand(piece).as_bytes(), shown)
}

fn operand(piece: usize) -> &'static str
    ensures { result.now ≡ operand piece }
{
    if piece == 1 { "left" } else { "right" }
}

/// Appends the number of a piece.
pub(crate) fn push_number(piece: usize, shown: &mut Vec<u8>) -> Result<(), AllocError>
    ensures { OnOk result (shown.new.items ≡ shown.old.items ++ cell (decimal piece)) }
{
    let mut buffer = Buffer::new();
    push_cell(buffer.format(piece).as_bytes(), shown)
}

fn push_cell(text: &[u8], shown: &mut Vec<u8>) -> Result<(), AllocError>
    ensures { OnOk result (shown.new.items ≡ shown.old.items ++ cell text.now) }
{
    shown.extend_from_slice(text)?;
    let filled = text.len().min(8);
    shown.extend_from_slice(&BLANKS.as_bytes()[filled..])
}
