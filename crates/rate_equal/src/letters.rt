//! What the items of a cell meet.
ghost use Rattle.std.specs.Prelude.{◌≡◌, ◌+◌, ◌<◌, ◌≤◌, ℕ, IfOk, OnOk, length};
ghost use Rattle.predicate_cells.specs.Cells.{cell_count};
ghost use Rattle.symbolic_nfa.specs.Automata.{Automaton};
ghost use Rattle.rate_equal.specs.Free.{IsWithout};
ghost use Rattle.rate_equal.specs.Letters.{AreLetters, AreMetBy, IsGathered};
ghost use Rattle.rate_equal.specs.Patterns.{AreCommon, positions_of};
ghost use Rattle.rate_equal.specs.Reach.{max_reach};
ghost use Rattle.rate_equal.specs.Targets.{target};

use crate::pair::Pair;
use crate::rows::without;
use indexmap::IndexSet;
use std::alloc::{AllocError, Global};
use symbolic_nfa::{Nfa, State};

/// The positions of two automata that the items of a cell meet. Cells that meet the same share a
/// letter.
#[derive(Clone, Copy, Debug, PartialEq, Eq, PartialOrd, Ord)]
pub(crate) struct Letter {
    // How many positions it lacks. Letters are sorted by this number first.
    pub(crate) missed: u32,
    pub(crate) first: u128,
    pub(crate) second: u128,
}

impl Letter {
    fn of(met: (u128, u128)) -> Letter
        ensures first { result.first ≡ met.0 }
        ensures second { result.second ≡ met.1 }
    {
        Letter {
            missed: met.0.count_zeros() + met.1.count_zeros(),
            first: met.0,
            second: met.1,
        }
    }

    /// A letter with the positions of this one but for those that are given.
    pub(crate) fn lacking(&self, positions: (u128, u128)) -> Letter
        ensures { IsWithout positions self.now result }
    {
        Letter::of((
            without(self.first, positions.0),
            without(self.second, positions.1),
        ))
    }

    pub(crate) fn positions(&self) -> (u128, u128)
        ensures { result ≡ positions_of self.now }
    {
        (self.first, self.second)
    }

    pub(crate) fn target(&self, ways: (u128, u128)) -> Pair
        ensures { result ≡ target ways self.now }
    {
        Pair {
            first: State::At(ways.0 & self.first),
            second: State::At(ways.1 & self.second),
        }
    }
}

/// One letter for each two sets of positions that the items of some cell meet.
pub(crate) fn letters(alloc: Global, left: &Nfa, right: &Nfa) -> Result<Vec<Letter>, AllocError>
    requires { left.now.cells ≡ right.now.cells }
    ensures letters { IfOk result (λ letters. AreLetters left.now right.now letters.items) }
    ensures few { IfOk result (λ letters. length letters.items ≤ max_reach) }
{
    let mut letters = letters_of_cells(alloc, left, right)?;
    // Pairs with more ways on should be found before those with fewer, since the targets along more
    // ways can be narrowed to fewer.
    letters.sort_unstable();
    Ok(letters)
}

// The same, in the order of the cells.
fn letters_of_cells(alloc: Global, first: &Nfa, second: &Nfa) -> Result<Vec<Letter>, AllocError>
    requires { first.now.cells ≡ second.now.cells }
    ensures letters { IfOk result (λ letters. AreLetters first.now second.now letters.items) }
    ensures few { IfOk result (λ letters. length letters.items ≤ max_reach) }
{
    let mut letters = Vec::new(alloc);
    let mut known = IndexSet::new(alloc);
    'cells: for cell in 0..first.cells().count() {
        let met = (first.met_by(cell), second.met_by(cell));
        add_letter(met, &mut known, &mut letters)?;
    }
    Ok(letters)
}

// Adds the letter of a cell, if no cell before it has the same.
fn add_letter(
    met: (u128, u128),
    known: &mut IndexSet<(u128, u128)>,
    letters: &mut Vec<Letter>,
) -> Result<(), AllocError>
    ensures gathered { OnOk result ((first second : Automaton) (cell : ℕ)
        → IsGathered first second cell known.old.keys letters.old.items
        → AreMetBy first second cell met → cell < cell_count first.cells
        → IsGathered first second (cell + 1) known.new.keys letters.new.items) }
    ensures few { OnOk result (length letters.new.items ≤ length letters.old.items + 1) }
{
    if !known.insert(met)? {
        return Ok(());
    }
    letters.push(Letter::of(met))?;
    Ok(())
}

/// The positions that all letters have.
pub(crate) fn common_of(letters: &[Letter]) -> (u128, u128)
    ensures { AreCommon letters.now result }
{
    let mut common = (u128::MAX, u128::MAX);
    'letters: for letter in letters {
        common = (common.0 & letter.first, common.1 & letter.second);
    }
    common
}
