//! A row: an item, and what reads it.
ghost use Rattle.std.specs.Prelude.{◌≡◌, ◌++◌, IfOk, OnOk};
ghost use Rattle.drawn_example.specs.Drawings.{line_text, row};
ghost use Rattle.drawn_example.specs.Drawn.{cells_in, columns_in};

use crate::cell::{push_number, push_operand};
use crate::drawing::Drawing;
use crate::pieces::piece_at;
use crate::readers::Readers;
use item_lines::shown_line;
use item_schema::{Item, Schema};
use language_base::Bytes;
use std::alloc::{AllocError, Global};

const NOT_SHOWN: &str = "(not shown: its line is long, or has bytes that are no text)";

/// Appends the row of the item at a place.
pub(crate) fn push_row(
    alloc: Global,
    drawing: &Drawing<'_>,
    place: usize,
    item: &Item,
    shown: &mut Vec<u8>,
) -> Result<(), AllocError>
    ensures { OnOk result (shown.new.items ≡ shown.old.items
        ++ row (columns_in drawing.now) (cells_in drawing.now place) item.now) }
{
    shown.extend_from_slice(b"    ")?;
    push_cells(drawing, place, shown)?;
    let line = line_of(alloc, drawing.schema, item)?;
    shown.extend_from_slice(line.as_slice())?;
    shown.extend_from_slice(b"\n")
}

// What reads the item at the place, in one reading and in the other.
fn push_cells(drawing: &Drawing<'_>, place: usize, shown: &mut Vec<u8>) -> Result<(), AllocError>
    ensures { OnOk result (shown.new.items ≡ shown.old.items ++ cells_in drawing.now place) }
{
    let first = piece_at(drawing.example.first().as_slice(), place);
    let second = piece_at(drawing.example.second().as_slice(), place);
    match drawing.readers {
        Readers::Both => Ok(()),
        Readers::Operands => {
            push_operand(first, shown)?;
            push_operand(second, shown)
        }
        Readers::Pieces => {
            push_number(first, shown)?;
            push_number(second, shown)
        }
    }
}

fn line_of(alloc: Global, schema: &Schema, item: &Item) -> Result<Bytes, AllocError>
    ensures { IfOk result (λ line. line ≡ line_text schema.now.columns item.now) }
{
    match shown_line(alloc, schema, item)? {
        Some(line) => Ok(line),
        None => Bytes::from_slice(alloc, NOT_SHOWN.as_bytes()),
    }
}
