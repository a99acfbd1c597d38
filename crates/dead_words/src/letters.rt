//! Which positions the items of cells meet.
ghost use Rattle.std.specs.Prelude.{◌≡◌, ◌+◌, ◌<◌, IfOk, OnOk};
ghost use Rattle.dead_words.specs.Letters.{AreGathered, AreLetters};
ghost use Rattle.predicate_cells.specs.Cells.{cell_count};

use crate::known_states::note;
use indexmap::IndexSet;
use std::alloc::{AllocError, Global};
use symbolic_nfa::Nfa;

/// A cell, and the positions that its items meet.
#[derive(Clone, Copy)]
pub(crate) struct Letter {
    pub(crate) cell: u32,
    pub(crate) met: u128,
}

/// One letter for each set of positions that the items of some cell meet.
pub(crate) fn letters_of(alloc: Global, nfa: &Nfa) -> Result<Vec<Letter>, AllocError>
    ensures { IfOk result (λ letters. AreLetters nfa.now letters.items) }
{
    let mut letters = Vec::new(alloc);
    let mut known = IndexSet::new(alloc);
    'cells: for cell in 0..nfa.cells().count() {
        add_letter(nfa, cell, &mut known, &mut letters)?;
    }
    Ok(letters)
}

// Adds the cell as a letter, unless the items of an earlier one meet the same positions.
fn add_letter(
    nfa: &Nfa,
    cell: u32,
    known: &mut IndexSet<u128>,
    letters: &mut Vec<Letter>,
) -> Result<(), AllocError>
    requires cell { cell < cell_count nfa.now.cells }
    requires gathered { AreGathered nfa.now cell known.old.keys letters.old.items }
    ensures { OnOk result (AreGathered nfa.now (cell + 1) known.new.keys letters.new.items) }
{
    let met = nfa.met_by(cell);
    if !note(known, met)? {
        return Ok(());
    }
    letters.push(Letter { cell, met })?;
    Ok(())
}
