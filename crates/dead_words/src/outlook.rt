//! How far the words of a rate go on.
ghost use Rattle.std.specs.Prelude.{IfOk};
ghost use Rattle.dead_words.specs.Outlooks.{IsOutlook};
ghost use Rattle.rate_expr.specs.Paths.{AreOf};
ghost use Rattle.rate_expr.specs.Rates.{Regex};

use crate::search::search;
use std::alloc::{AllocError, Global};
use symbolic_nfa::Nfa;

/// What a search has found of the words of a rate.
#[derive(Drop)]
pub enum Outlook {
    /// After items of these cells no further items lead to a word of the rate; after fewer items
    /// some always do.
    Ends(Vec<u32>),
    /// After all items some further ones do.
    GoesOn,
    /// The search came to no end.
    Undecided,
}

/// Searches the words of up to 64 items, with about 262,144 steps from a state to a state at most.
pub fn outlook_of(alloc: Global, nfa: &Nfa) -> Result<Outlook, AllocError>
    ensures { (rate : Regex) → AreOf nfa.now.sets rate
        → IfOk result (IsOutlook nfa.now.cells rate) }
{
    search(alloc, nfa)
}
