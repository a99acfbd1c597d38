//! Which positions the items of cells meet.
ghost use Rattle.std.specs.Prelude.{◌≡◌, ◌+◌, ◌<◌, IfOk, OnOk};
ghost use Rattle.predicate_cells.specs.Cells.{cell_count};
ghost use Rattle.separating_word.specs.Letters.{AreGathered, AreLetters, target};
ghost use Rattle.separating_word.specs.Pairs.{ShareCells};

use crate::automata::Automata;
use crate::known_pairs::note;
use indexmap::IndexSet;
use std::alloc::{AllocError, Global};

/// A cell, and the positions of both automata that its items meet.
#[derive(Clone, Copy)]
pub(crate) struct Letter {
    pub(crate) cell: u32,
    pub(crate) left: u128,
    pub(crate) right: u128,
}

impl Letter {
    /// The positions of both that its items lead to, out of those that may come next.
    pub(crate) fn target(&self, ways: (u128, u128)) -> (u128, u128)
        ensures { result ≡ target ways self.now }
    {
        (ways.0 & self.left, ways.1 & self.right)
    }
}

/// One letter for each pair of sets of positions that the items of some cell meet.
pub(crate) fn letters_of(alloc: Global, automata: &Automata) -> Result<Vec<Letter>, AllocError>
    requires { ShareCells automata.now }
    ensures { IfOk result (λ letters. AreLetters automata.now letters.items) }
{
    let mut letters = Vec::new(alloc);
    let mut known = IndexSet::new(alloc);
    'cells: for cell in 0..automata.left.cells().count() {
        add_letter(automata, cell, &mut known, &mut letters)?;
    }
    Ok(letters)
}

// Adds the cell as a letter, unless the items of an earlier one meet the same positions.
fn add_letter(
    automata: &Automata,
    cell: u32,
    known: &mut IndexSet<(u128, u128)>,
    letters: &mut Vec<Letter>,
) -> Result<(), AllocError>
    requires cells { ShareCells automata.now }
    requires cell { cell < cell_count automata.now.left.cells }
    requires gathered { AreGathered automata.now cell known.old.keys letters.old.items }
    ensures { OnOk result (AreGathered automata.now (cell + 1) known.new.keys letters.new.items) }
{
    let left = automata.left.met_by(cell);
    let right = automata.right.met_by(cell);
    if !note(known, (left, right))? {
        return Ok(());
    }
    letters.push(Letter { cell, left, right })?;
    Ok(())
}
