//! The search for a shortest word that cannot be extended, level by level: by words of one cell
//! more each time.
ghost use Rattle.std.specs.Prelude.{◌≡◌, ◌+◌, ◌++◌, ℕ, [], ◌∷◌, All, IfNone, IfOk, IfSome};
ghost use Rattle.std.specs.Prelude.{OnOk, length};
ghost use Rattle.dead_words.specs.Letters.{AreLetters};
ghost use Rattle.dead_words.specs.Searched.{HaveItems, IsAmong, IsEndIn, IsExpanded};
ghost use Rattle.dead_words.specs.Searched.{IsFoundIn, IsReachedIn, IsSearched, IsSearchedOn};
ghost use Rattle.dead_words.specs.Searched.{LeadsOn};
ghost use Rattle.rate_expr.specs.declared.state.State.TheVariants.{Initial};
ghost use Rattle.symbolic_nfa.specs.Automata.{Automaton};

use crate::known_states::note;
use crate::letters::{Letter, letters_of};
use crate::outlook::Outlook;
use indexmap::IndexSet;
use std::alloc::{AllocError, Global};
use symbolic_nfa::{Nfa, State};

/// The most items of a word that is searched.
const MAX_ITEMS: usize = 64;
/// About the most steps that are tried.
const MAX_STEPS: usize = 262_144;

/// The state after a word of cells.
#[derive(Drop)]
pub(crate) struct Reached {
    pub(crate) state: State,
    pub(crate) word: Vec<u32>,
}

/// The result of a search among words that are one cell longer than those of a level.
#[derive(Drop)]
pub(crate) enum Level {
    /// One of them cannot be extended.
    Found(Vec<u32>),
    /// All can. These are the first ones that lead to their states.
    Next(Vec<Reached>),
    /// The search would take too many steps.
    Stopped,
}

/// How far words of cells go on in the automaton.
pub(crate) fn search(alloc: Global, nfa: &Nfa) -> Result<Outlook, AllocError>
    ensures { IfOk result (IsFoundIn nfa.now) }
{
    if !nfa.extends(State::Initial) {
        return Ok(Outlook::Ends(Vec::new(alloc)));
    }
    let letters = letters_of(alloc, nfa)?;
    let first = first_level(alloc)?;
    let mut known = IndexSet::new(alloc);
    search_levels(alloc, nfa, &letters, first, &mut known)
}

// The same among words that are longer than those of the first level.
fn search_levels(
    alloc: Global,
    nfa: &Nfa,
    letters: &[Letter],
    first: Vec<Reached>,
    known: &mut IndexSet<u128>,
) -> Result<Outlook, AllocError>
    requires letters { AreLetters nfa.now letters.now }
    requires reached { All (IsReachedIn nfa.now) first.items }
    requires items { HaveItems 0 first.items }
    requires searched { IsSearched nfa.now 0 known.old.keys first.items }
    ensures { IfOk result (IsFoundIn nfa.now) }
{
    let mut level = first;
    'levels: for _ in 0..MAX_ITEMS {
        if level.is_empty() {
            return Ok(Outlook::GoesOn);
        }
        match next_level(alloc, nfa, letters, &level, known)? {
            Level::Found(word) => return Ok(Outlook::Ends(word)),
            Level::Next(next) => level = next,
            Level::Stopped => return Ok(Outlook::Undecided),
        }
    }
    Ok(Outlook::Undecided)
}

// The state after the empty word.
fn first_level(alloc: Global) -> Result<Vec<Reached>, AllocError>
    ensures reached { (nfa : Automaton) → IfOk result (λ level. All (IsReachedIn nfa) level.items) }
    ensures items { IfOk result (λ level. HaveItems 0 level.items) }
    ensures initial { IfOk result (λ level. IsAmong level.items Initial) }
{
    let mut level = Vec::new(alloc);
    level.push(Reached {
        state: State::Initial,
        word: Vec::new(alloc),
    })?;
    Ok(level)
}

// The words that are one cell longer, as far as no other word leads to the same state.
fn next_level(
    alloc: Global,
    nfa: &Nfa,
    letters: &[Letter],
    level: &[Reached],
    known: &mut IndexSet<u128>,
) -> Result<Level, AllocError>
    requires letters { AreLetters nfa.now letters.now }
    requires level { All (IsReachedIn nfa.now) level.now }
    ensures level { IfOk result (LeadsOn nfa.now) }
    ensures searched { (items : ℕ) → HaveItems items level.now
        → IsSearched nfa.now items known.old.keys level.now
        → IfOk result (IsSearchedOn nfa.now (items + 1) known.new.keys) }
{
    let mut next = Vec::new(alloc);
    'level: for from in level {
        if known.len().saturating_mul(letters.len()) > MAX_STEPS {
            return Ok(Level::Stopped);
        }
        if let Some(word) = expand(alloc, nfa, letters, from, known, &mut next)? {
            return Ok(Level::Found(word));
        }
    }
    Ok(Level::Next(next))
}

// A word with one cell more than this one that cannot be extended. If there is none, the states
// that are reached for the first time are added to the next level.
fn expand(
    alloc: Global,
    nfa: &Nfa,
    letters: &[Letter],
    from: &Reached,
    known: &mut IndexSet<u128>,
    next: &mut Vec<Reached>,
) -> Result<Option<Vec<u32>>, AllocError>
    requires letters { AreLetters nfa.now letters.now }
    requires from { IsReachedIn nfa.now from.now }
    requires next { All (IsReachedIn nfa.now) next.old.items }
    ensures found { IfOk result (λ found. IfSome found (λ word. IsEndIn nfa.now word.items
        × (length word.items ≡ length from.now.word.items + 1))) }
    ensures next { OnOk result (All (IsReachedIn nfa.now) next.new.items) }
    ensures items { OnOk result ((items : ℕ) → length from.now.word.items + 1 ≡ items
        → HaveItems items next.old.items → HaveItems items next.new.items) }
    ensures expanded { IfOk result (λ found. IfNone found (IsExpanded nfa.now
        from.now known.old.keys next.old.items known.new.keys next.new.items)) }
{
    let ways = nfa.ways_on(from.state);
    'letters: for letter in letters {
        let mask = ways & letter.met;
        if note(known, mask)? {
            let state = State::At(mask);
            let word = with_cell(alloc, &from.word, letter.cell)?;
            if !nfa.extends(state) {
                return Ok(Some(word));
            }
            next.push(Reached { state, word })?;
        }
    }
    Ok(None)
}

// The word with one more cell.
fn with_cell(alloc: Global, word: &[u32], cell: u32) -> Result<Vec<u32>, AllocError>
    ensures { IfOk result (λ longer. longer.items ≡ word.now ++ cell ∷ []) }
{
    let mut longer = Vec::with_capacity(alloc, word.len() + 1)?;
    longer.extend_from_slice(word)?;
    longer.push(cell)?;
    Ok(longer)
}
