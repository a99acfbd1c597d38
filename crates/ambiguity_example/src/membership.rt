//! Whether words are words of a rate, asked of its automaton.
ghost use Rattle.std.specs.Prelude.{◌≡◌, ◌≤◌, MatchBool, length, take, drop};
ghost use Rattle.rate_expr.specs.Language.{In};
ghost use Rattle.rate_expr.specs.Paths.{AreOf};
ghost use Rattle.rate_expr.specs.Rates.{Regex};
ghost use Rattle.rate_expr.specs.Words.{IsWordOf};
ghost use Rattle.ambiguity_example.specs.Cuts.{PartsInto};
ghost use Rattle.ambiguity_example.specs.Parts.{PartsFrom};

use item_schema::Item;
use symbolic_nfa::{Nfa, State};

/// Whether the items are a word of the rate.
pub(crate) fn reads(nfa: &Nfa, items: &[Item]) -> bool
    requires { IsWordOf nfa.now.cells.layout.columns items.now }
    ensures { (rate : Regex) → AreOf nfa.now.sets rate
        → MatchBool result (In rate items.now) (In rate items.now → ⊥) }
{
    let mut state = State::Initial;
    'items: for item in items {
        state = nfa.step(state, nfa.cells().of(item));
    }
    nfa.accepts(state)
}

/// Whether the items are a word of the first rate up to a place, and one of the second after it.
pub(crate) fn reads_both(first: &Nfa, second: &Nfa, items: &[Item], middle: usize) -> bool
    requires cells { first.now.cells ≡ second.now.cells }
    requires items { IsWordOf first.now.cells.layout.columns items.now }
    requires middle { middle ≤ length items.now }
    ensures { (r s : Regex) → AreOf first.now.sets r → AreOf second.now.sets s
        → MatchBool result (In r (take middle items.now) × In s (drop middle items.now))
        (In r (take middle items.now) → In s (drop middle items.now) → ⊥) }
{
    let (front, rest) = items.split_at(middle);
    reads(first, front) && reads(second, rest)
}

/// Whether the cuts part the items into words of the rate.
pub(crate) fn parts_into(nfa: &Nfa, items: &[Item], cuts: &[u32]) -> bool
    requires { IsWordOf nfa.now.cells.layout.columns items.now }
    ensures { (rate : Regex) → AreOf nfa.now.sets rate
        → MatchBool result (PartsInto rate items.now cuts.now)
        (PartsInto rate items.now cuts.now → ⊥) }
{
    let [begin, ends @ ..] = cuts else {
        return false;
    };
    if *begin != 0 {
        return false;
    }
    reads_parts(nfa, items, ends)
}

// Whether the items are parted by the cuts into words of the rate, and no item is left.
fn reads_parts(nfa: &Nfa, items: &[Item], cuts: &[u32]) -> bool
    requires { IsWordOf nfa.now.cells.layout.columns items.now }
    ensures { (rate : Regex) → AreOf nfa.now.sets rate
        → MatchBool result (PartsFrom rate 0 items.now cuts.now)
        (PartsFrom rate 0 items.now cuts.now → ⊥) }
{
    let mut begin = 0;
    let (_, mut rest) = items.split_at(0);
    'cuts: for &cut in cuts {
        if cut < begin || rest.len() < (cut - begin) as usize {
            return false;
        }
        let (piece, others) = rest.split_at((cut - begin) as usize);
        if !reads(nfa, piece) {
            return false;
        }
        begin = cut;
        rest = others;
    }
    rest.is_empty()
}
