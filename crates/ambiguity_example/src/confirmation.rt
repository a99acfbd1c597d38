//! Whether an example shows that a rule is broken.
ghost use Rattle.std.specs.Prelude.{◌≡◌, ◌↔◌, MatchBool};
ghost use Rattle.rate_expr.specs.Paths.{AreOf};
ghost use Rattle.rate_expr.specs.Rates.{Regex};
ghost use Rattle.rate_expr.specs.Words.{IsWordOf};
ghost use Rattle.ambiguity_example.specs.Asks.{Asks, ShareCells, columns_of};
ghost use Rattle.ambiguity_example.specs.Shows.{Question, Shows, ShowsOverlap, ShowsSplits};
ghost use Rattle.ambiguity_example.specs.Shows.{ShowsFactorings};

use crate::membership::{parts_into, reads, reads_both};
use crate::pieces::{is_whole, middle_of};
use crate::question::Ask;
use crate::two_readings::Example;
use symbolic_nfa::Nfa;

/// Asks the automata whether the example has two readings that the rule forbids.
pub fn confirm(ask: Ask<'_>, example: &Example) -> bool
    requires cells { ShareCells ask }
    requires items { IsWordOf (columns_of ask) example.now.items }
    ensures { (question : Question) → Asks ask.entry question
        → MatchBool result (Shows (columns_of ask.entry) question example.now)
        (Shows (columns_of ask.entry) question example.now → ⊥) }
{
    match ask {
        Ask::Choice(first, second) => is_in_both(first, second, example),
        Ask::Split(first, second) => splits_twice(first, second, example),
        Ask::Iter(nfa) => factors_twice(nfa, example),
    }
}

fn is_in_both(first: &Nfa, second: &Nfa, example: &Example) -> bool
    requires cells { first.now.cells ≡ second.now.cells }
    requires items { IsWordOf first.now.cells.layout.columns example.now.items }
    ensures { (r s : Regex) → AreOf first.now.sets r → AreOf second.now.sets s
        → MatchBool result (ShowsOverlap r s example.now) (ShowsOverlap r s example.now → ⊥) }
{
    let items = example.items();
    is_whole(example.first().as_slice(), items.len())
        && is_whole(example.second().as_slice(), items.len())
        && reads(first, items)
        && reads(second, items)
}

fn splits_twice(first: &Nfa, second: &Nfa, example: &Example) -> bool
    requires cells { first.now.cells ≡ second.now.cells }
    requires items { IsWordOf first.now.cells.layout.columns example.now.items }
    ensures { (r s : Regex) → AreOf first.now.sets r → AreOf second.now.sets s
        → MatchBool result (ShowsSplits r s example.now) (ShowsSplits r s example.now → ⊥) }
{
    let items = example.items();
    let Some(shorter) = middle_of(example.first().as_slice(), items.len()) else {
        return false;
    };
    let Some(longer) = middle_of(example.second().as_slice(), items.len()) else {
        return false;
    };
    shorter < longer
        && reads_both(first, second, items, shorter)
        && reads_both(first, second, items, longer)
}

fn factors_twice(nfa: &Nfa, example: &Example) -> bool
    requires { IsWordOf nfa.now.cells.layout.columns example.now.items }
    ensures { (r : Regex) → AreOf nfa.now.sets r
        → MatchBool result (ShowsFactorings r example.now) (ShowsFactorings r example.now → ⊥) }
{
    let items = example.items();
    let (first, second) = (example.first().as_slice(), example.second().as_slice());
    first != second && parts_into(nfa, items, first) && parts_into(nfa, items, second)
}
