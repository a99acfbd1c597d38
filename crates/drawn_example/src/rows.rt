//! The rows of a word.
ghost use Rattle.std.specs.Prelude.{◌≡◌, ◌≤◌, ◌<◌, ◌++◌, ◌+◌, ◌^◌, OnOk, length};
ghost use Rattle.drawn_example.specs.Drawings.{gap, rows, rows_of, some_rows};
ghost use Rattle.drawn_example.specs.Drawn.{cells_in, columns_in, parting_in};

use crate::drawing::Drawing;
use crate::pieces::parting;
use crate::row::push_row;
use crate::window::{ENDS, Window, window_at};
use item_schema::Item;
use itoa::Buffer;
use std::alloc::{AllocError, Global};

/// The most items of a word that is drawn whole.
const MOST: usize = 16;

/// Appends a row for each item of the word, or for some of them if it is long.
pub(crate) fn push_rows(
    alloc: Global,
    drawing: &Drawing<'_>,
    shown: &mut Vec<u8>,
) -> Result<(), AllocError>
    ensures { OnOk result (shown.new.items ≡ shown.old.items ++ rows_of (columns_in drawing.now)
        (cells_in drawing.now) (parting_in drawing.now) drawing.now.example.now.items) }
{
    let items = drawing.example.items();
    if items.len() <= MOST {
        return push_rows_from(alloc, drawing, 0, items, shown);
    }
    let place = parting(
        drawing.example.first().as_slice(),
        drawing.example.second().as_slice(),
    );
    let window = window_at(items.len(), place as usize);
    push_some(alloc, drawing, items, window, shown)
}

// The rows of the first and the last items of a long word, and of those in a window.
fn push_some(
    alloc: Global,
    drawing: &Drawing<'_>,
    items: &[Item],
    window: Window,
    shown: &mut Vec<u8>,
) -> Result<(), AllocError>
    requires first { 4 ≤ window.from }
    requires window { window.from ≤ window.to }
    requires last { window.to + 4 ≤ length items.now }
    ensures { OnOk result (shown.new.items ≡ shown.old.items ++ some_rows (columns_in drawing.now)
        (cells_in drawing.now) window.from window.to items.now) }
{
    let Window { from, to } = window;
    let last = items.len() - ENDS;
    push_rows_from(alloc, drawing, 0, &items[..ENDS], shown)?;
    push_gap(from - ENDS, shown)?;
    push_rows_from(alloc, drawing, from, &items[from..to], shown)?;
    push_gap(last - to, shown)?;
    push_rows_from(alloc, drawing, last, &items[last..], shown)
}

// The rows of the items, the first of which has this place in the word.
fn push_rows_from(
    alloc: Global,
    drawing: &Drawing<'_>,
    place: usize,
    items: &[Item],
    shown: &mut Vec<u8>,
) -> Result<(), AllocError>
    requires { place + length items.now < 2 ^ 64 }
    ensures { OnOk result (shown.new.items ≡ shown.old.items
        ++ rows (columns_in drawing.now) (cells_in drawing.now) place items.now) }
{
    let [item, others @ ..] = items else {
        return Ok(());
    };
    push_row(alloc, drawing, place, item, shown)?;
    push_rows_from(alloc, drawing, place + 1, others, shown)
}

// A row that says how many items are left out, if any are.
fn push_gap(items: usize, shown: &mut Vec<u8>) -> Result<(), AllocError>
    ensures { OnOk result (shown.new.items ≡ shown.old.items ++ gap items) }
{
    if items == 0 {
        return Ok(());
    }
    let mut buffer = Buffer::new();
    shown.extend_from_slice(b"    (items left out here: ")?;
    shown.extend_from_slice(buffer.format(items).as_bytes())?;
    shown.extend_from_slice(b")\n")
}
