//! The search for a shortest word that only one of two automata accepts, level by level: by words
//! of one cell more each time.
ghost use Rattle.std.specs.Prelude.{◌≡◌, ◌+◌, ◌++◌, ℕ, [], ◌∷◌, All, IfNone, IfOk, IfSome};
ghost use Rattle.std.specs.Prelude.{MatchBool, OnOk, length};
ghost use Rattle.rate_expr.specs.declared.state.State.TheVariants.{Initial};
ghost use Rattle.separating_word.specs.declared.automata.Automata.{Automata};
ghost use Rattle.separating_word.specs.Letters.{AreLetters};
ghost use Rattle.separating_word.specs.Pairs.{AreCellsOf, ShareCells};
ghost use Rattle.separating_word.specs.Searched.{Agree, AreAmong, HaveItems, IsExpanded};
ghost use Rattle.separating_word.specs.Searched.{IsReachedIn, IsSearched, IsSearchedOn};
ghost use Rattle.separating_word.specs.Searched.{IsShortestApart, LeadsOn};

use crate::automata::Automata;
use crate::known_pairs::note;
use crate::letters::{Letter, letters_of};
use indexmap::IndexSet;
use std::alloc::{AllocError, Global};
use symbolic_nfa::State;

/// The most items of a word that is searched.
const MAX_ITEMS: usize = 8;
/// About the most steps that are tried.
const MAX_STEPS: usize = 262_144;

/// The states after a word of cells.
#[derive(Drop)]
pub(crate) struct Reached {
    pub(crate) left: State,
    pub(crate) right: State,
    pub(crate) word: Vec<u32>,
}

/// The result of a search among words that are one cell longer than those of a level.
#[derive(Drop)]
pub(crate) enum Level {
    /// One of them is accepted by only one automaton.
    Found(Vec<u32>),
    /// None is. These are the first ones that lead to their states.
    Next(Vec<Reached>),
    /// The search would take too many steps.
    Stopped,
}

/// The cells of a shortest word that only one automaton accepts.
pub(crate) fn cells_apart(
    alloc: Global,
    automata: &Automata,
) -> Result<Option<Vec<u32>>, AllocError>
    requires { ShareCells automata.now }
    ensures { IfOk result (λ found.
        IfSome found (λ cells. IsShortestApart automata.now cells.items)) }
{
    if differ(automata, State::Initial, State::Initial) {
        return Ok(Some(Vec::new(alloc)));
    }
    let letters = letters_of(alloc, automata)?;
    let first = first_level(alloc)?;
    let mut known = IndexSet::new(alloc);
    search_levels(alloc, automata, &letters, first, &mut known)
}

// Whether a word may end in exactly one of these states.
fn differ(automata: &Automata, left: State, right: State) -> bool
    ensures { MatchBool result (Agree automata.now left right → ⊥)
        (Agree automata.now left right) }
{
    automata.left.accepts(left) != automata.right.accepts(right)
}

// The same among words that are longer than those of the first level.
fn search_levels(
    alloc: Global,
    automata: &Automata,
    letters: &[Letter],
    first: Vec<Reached>,
    known: &mut IndexSet<(u128, u128)>,
) -> Result<Option<Vec<u32>>, AllocError>
    requires cells { ShareCells automata.now }
    requires letters { AreLetters automata.now letters.now }
    requires reached { All (IsReachedIn automata.now) first.items }
    requires items { HaveItems 0 first.items }
    requires searched { IsSearched automata.now 0 known.old.keys first.items }
    ensures { IfOk result (λ found.
        IfSome found (λ cells. IsShortestApart automata.now cells.items)) }
{
    let mut level = first;
    'levels: for _ in 0..MAX_ITEMS {
        match next_level(alloc, automata, letters, &level, known)? {
            Level::Found(word) => return Ok(Some(word)),
            Level::Next(next) => level = next,
            Level::Stopped => return Ok(None),
        }
    }
    Ok(None)
}

// The states after the empty word.
fn first_level(alloc: Global) -> Result<Vec<Reached>, AllocError>
    ensures reached { (automata : Automata) → IfOk result (λ level.
        All (IsReachedIn automata) level.items) }
    ensures items { IfOk result (λ level. HaveItems 0 level.items) }
    ensures initial { IfOk result (λ level. AreAmong level.items Initial Initial) }
{
    let mut level = Vec::new(alloc);
    level.push(Reached {
        left: State::Initial,
        right: State::Initial,
        word: Vec::new(alloc),
    })?;
    Ok(level)
}

// The words that are one cell longer, as far as no other word leads to the same states.
fn next_level(
    alloc: Global,
    automata: &Automata,
    letters: &[Letter],
    level: &[Reached],
    known: &mut IndexSet<(u128, u128)>,
) -> Result<Level, AllocError>
    requires cells { ShareCells automata.now }
    requires letters { AreLetters automata.now letters.now }
    requires level { All (IsReachedIn automata.now) level.now }
    ensures level { IfOk result (LeadsOn automata.now) }
    ensures searched { (items : ℕ) → HaveItems items level.now
        → IsSearched automata.now items known.old.keys level.now
        → IfOk result (IsSearchedOn automata.now (items + 1) known.new.keys) }
{
    let mut next = Vec::new(alloc);
    'level: for from in level {
        if known.len().saturating_mul(letters.len()) > MAX_STEPS {
            return Ok(Level::Stopped);
        }
        if let Some(word) = expand(alloc, automata, letters, from, known, &mut next)? {
            return Ok(Level::Found(word));
        }
    }
    Ok(Level::Next(next))
}

// A word with one cell more than this one that only one automaton accepts. If there is none, the
// states that are reached for the first time are added to the next level.
fn expand(
    alloc: Global,
    automata: &Automata,
    letters: &[Letter],
    from: &Reached,
    known: &mut IndexSet<(u128, u128)>,
    next: &mut Vec<Reached>,
) -> Result<Option<Vec<u32>>, AllocError>
    requires cells { ShareCells automata.now }
    requires letters { AreLetters automata.now letters.now }
    requires from { IsReachedIn automata.now from.now }
    requires next { All (IsReachedIn automata.now) next.old.items }
    ensures found { IfOk result (λ found. IfSome found (λ word.
        AreCellsOf automata.now word.items
        × (length word.items ≡ length from.now.word.items + 1))) }
    ensures next { OnOk result (All (IsReachedIn automata.now) next.new.items) }
    ensures items { OnOk result ((items : ℕ) → length from.now.word.items + 1 ≡ items
        → HaveItems items next.old.items → HaveItems items next.new.items) }
    ensures expanded { IfOk result (λ found. IfNone found (IsExpanded automata.now
        from.now known.old.keys next.old.items known.new.keys next.new.items)) }
{
    let ways = (
        automata.left.ways_on(from.left),
        automata.right.ways_on(from.right),
    );
    'letters: for letter in letters {
        let masks = letter.target(ways);
        if note(known, masks)? {
            let (left, right) = (State::At(masks.0), State::At(masks.1));
            let word = with_cell(alloc, &from.word, letter.cell)?;
            if differ(automata, left, right) {
                return Ok(Some(word));
            }
            next.push(Reached { left, right, word })?;
        }
    }
    Ok(None)
}

// The word with one more cell.
fn with_cell(alloc: Global, word: &[u32], cell: u32) -> Result<Vec<u32>, AllocError>
    ensures { IfOk result (λ longer. longer.items ≡ word.now ++ cell ∷ []) }
{
    let mut longer = Vec::with_capacity(alloc, word.len() + 1)?;
    longer.extend_from_slice(word)?;
    longer.push(cell)?;
    Ok(longer)
}
