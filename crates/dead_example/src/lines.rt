//! The lines of items of cells.
ghost use Rattle.std.specs.Prelude.{◌<◌, All, IfOk, IfSome};
ghost use Rattle.dead_example.specs.Rates.{AreLinesIn, IsLineIn};
ghost use Rattle.predicate_cells.specs.Cells.{cell_count};

use item_lines::shown_line;
use language_base::Bytes;
use plain_items::plain_item;
use predicate_cells::Cells;
use std::alloc::{AllocError, Global};

/// A line for each cell, if all can be shown.
pub(crate) fn lines_of(
    alloc: Global,
    cells: &Cells,
    places: &[u32],
) -> Result<Option<Vec<Bytes>>, AllocError>
    requires { All (λ place. place < cell_count cells.now) places.now }
    ensures { IfOk result (λ found.
        IfSome found (λ lines. AreLinesIn cells.now places.now lines.items)) }
{
    let mut lines = Vec::new(alloc);
    'places: for &place in places {
        match line_of(alloc, cells, place)? {
            Some(line) => lines.push(line)?,
            None => return Ok(None),
        }
    }
    Ok(Some(lines))
}

// The line of an item of the cell, if it can be shown.
fn line_of(alloc: Global, cells: &Cells, place: u32) -> Result<Option<Bytes>, AllocError>
    requires { place < cell_count cells.now }
    ensures { IfOk result (λ found. IfSome found (IsLineIn cells.now place)) }
{
    let item = plain_item(alloc, cells, place)?;
    shown_line(alloc, cells.schema(), &item)
}
