//! A shortest example of a broken rule.
ghost use Rattle.std.specs.Prelude.{◌≡◌, IfOk, MatchOption};
ghost use Rattle.ambiguity_example.specs.Asks.{Asks, ShareCells, columns_of};
ghost use Rattle.ambiguity_example.specs.Shows.{Question, IsKept, IsShortestShown};

use crate::question::Ask;
use crate::shared_words::shared_word;
use crate::two_factorings::word_of_two_factorings;
use crate::two_readings::Example;
use crate::two_splits::word_of_two_splits;
use std::alloc::{AllocError, Global};

/// A shortest word with two readings that the rule forbids, if there is one.
pub fn example(alloc: Global, ask: Ask<'_>) -> Result<Option<Example>, AllocError>
    requires { ShareCells ask }
    ensures { IfOk result (λ found. (question : Question) → Asks ask.entry question
        → MatchOption found (IsKept (columns_of ask.entry) question)
        (IsShortestShown (columns_of ask.entry) question)) }
{
    match ask {
        Ask::Choice(first, second) => shared_word(alloc, first, second),
        Ask::Split(first, second) => word_of_two_splits(alloc, first, second),
        Ask::Iter(nfa) => word_of_two_factorings(alloc, nfa),
    }
}
