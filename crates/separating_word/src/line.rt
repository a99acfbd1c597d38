//! The lines of a word that only one of two automata accepts.
ghost use Rattle.std.specs.Prelude.{◌≡◌, ◌<◌, IfOk, IfSome, IsTrue, length};
ghost use Rattle.std.specs.List.{list_all};
ghost use Rattle.predicate_cells.specs.Cells.{cell_count};
ghost use Rattle.query_model.specs.Monitors.{monitor_of};
ghost use Rattle.item_lines.specs.Lines.{is_shown};
ghost use Rattle.separating_word.specs.Pairs.{AreCellsOf, ShareCells};
ghost use Rattle.separating_word.specs.Searched.{AgreeBelow};
ghost use Rattle.separating_word.specs.Separations.{ShareWordsBelow};

use crate::automata::{Automata, automata_of};
use crate::search::cells_apart;
use item_lines::shown_line;
use language_base::Bytes;
use plain_items::plain_item;
use predicate_cells::Cells;
use query_model::Checked;
use std::alloc::{AllocError, Global};

/// The lines of a shortest word in the rate of only one of the queries, if one is found and all of
/// its lines can be shown.
pub(crate) fn lines_apart(
    alloc: Global,
    left: &Checked,
    right: &Checked,
) -> Result<Option<Vec<Bytes>>, AllocError>
    ensures shown { IfOk result (λ found.
        IfSome found (λ lines. IsTrue (list_all is_shown lines.items))) }
    ensures shortest { IfOk result (λ found. IfSome found (λ lines.
        ShareWordsBelow (monitor_of left.now) (monitor_of right.now) (length lines.items))) }
{
    match automata_of(alloc, left, right)? {
        Some(automata) => lines_between(alloc, &automata),
        None => Ok(None),
    }
}

// The same for the automata of the rates.
fn lines_between(alloc: Global, automata: &Automata) -> Result<Option<Vec<Bytes>>, AllocError>
    requires { ShareCells automata.now }
    ensures shown { IfOk result (λ found.
        IfSome found (λ lines. IsTrue (list_all is_shown lines.items))) }
    ensures agree { IfOk result (λ found.
        IfSome found (λ lines. AgreeBelow automata.now (length lines.items))) }
{
    match cells_apart(alloc, automata)? {
        Some(word) => lines_of(alloc, automata, &word),
        None => Ok(None),
    }
}

// A line for each cell, if all can be shown.
fn lines_of(
    alloc: Global,
    automata: &Automata,
    word: &[u32],
) -> Result<Option<Vec<Bytes>>, AllocError>
    requires { AreCellsOf automata.now word.now }
    ensures shown { IfOk result (λ found.
        IfSome found (λ lines. IsTrue (list_all is_shown lines.items))) }
    ensures length { IfOk result (λ found.
        IfSome found (λ lines. length lines.items ≡ length word.now)) }
{
    let mut lines = Vec::new(alloc);
    'cells: for &cell in word {
        match line_of(alloc, automata.left.cells(), cell)? {
            Some(line) => lines.push(line)?,
            None => return Ok(None),
        }
    }
    Ok(Some(lines))
}

// The line of an item of the cell, if it can be shown.
#[tactic(auto, using(crate::proofs::Found::shown_found))]
fn line_of(alloc: Global, cells: &Cells, cell: u32) -> Result<Option<Bytes>, AllocError>
    requires { cell < cell_count cells.now }
    ensures { IfOk result (λ found. IfSome found (λ line. IsTrue (is_shown line))) }
{
    let item = plain_item(alloc, cells, cell)?;
    shown_line(alloc, cells.schema(), &item)
}
