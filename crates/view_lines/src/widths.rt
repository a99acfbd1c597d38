//! How wide cells are, and cells that are filled to a width.
ghost use Rattle.std.specs.Prelude.{◌≡◌, ◌+◌, ◌≤◌, ◌++◌, OnOk, drop, max, replicate, ◌∷◌, []};
ghost use Rattle.view_lines.specs.Columns.{filled, first_of, width_of};

use item_schema::Kind;
use std::alloc::AllocError;
use view_texts::goes_on;

/// How many characters a text has.
fn width_of(text: &[u8]) -> usize
    ensures { result ≡ width_of text.now }
{
    text.iter().filter(|byte| !goes_on(**byte)).count()
}

// The width of the first column, if it has one yet.
fn first_of(widths: &[usize]) -> usize
    ensures { result ≡ first_of widths.now }
{
    match widths {
        [width, ..] => *width,
        [] => 0,
    }
}

/// The widths of the columns after the first.
pub(crate) fn others_of(widths: &[usize]) -> &[usize]
    ensures { result.now ≡ drop 1 widths.now }
{
    match widths {
        [_, others @ ..] => others,
        [] => widths,
    }
}

/// Appends a cell to a row, and its column's width to those after the row. The first of `widths` is
/// the width before it.
pub(crate) fn push_filled(
    kind: Kind,
    widths: &[usize],
    cell: &[u8],
    after: &mut Vec<usize>,
    text: &mut Vec<u8>,
) -> Result<(), AllocError>
    ensures after { OnOk result (after.new.items
        ≡ after.old.items ++ max (first_of widths.now) (width_of cell.now) ∷ []) }
    ensures text { OnOk result (text.new.items ≡ text.old.items
        ++ filled kind (max (first_of widths.now) (width_of cell.now)) cell.now) }
{
    let own = width_of(cell);
    let width = first_of(widths).max(own);
    after.push(width)?;
    match kind {
        Kind::Text => {
            text.extend_from_slice(cell)?;
            push_spaces(width - own, text)
        }
        _ => {
            push_spaces(width - own, text)?;
            text.extend_from_slice(cell)
        }
    }
}

fn push_spaces(count: usize, text: &mut Vec<u8>) -> Result<(), AllocError>
    ensures { OnOk result (text.new.items ≡ text.old.items ++ replicate count 32) }
{
    'spaces: for _ in 0..count {
        text.push(b' ')?;
    }
    Ok(())
}
