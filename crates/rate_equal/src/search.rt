//! The search for all pairs of states to which words lead.
ghost use Rattle.std.specs.Prelude.{◌≡◌, ◌+◌, [], ◌∷◌, Err, IfOk, OnOk};
ghost use Rattle.rate_expr.specs.declared.state.State.TheVariants.{Initial};
ghost use Rattle.rate_equal.specs.Free.{AreKnownFree};
ghost use Rattle.rate_equal.specs.declared.stop.EqualStop.TheVariants.{Reach};
ghost use Rattle.rate_equal.specs.Letters.{AreLetters};
ghost use Rattle.rate_equal.specs.Pairs.{AreAll};
ghost use Rattle.rate_equal.specs.Reach.{max_reach, ReachPairs};

use crate::alphabet::Alphabet;
use crate::letters::letters;
use crate::pair::Pair;
use crate::stop::EqualStop;
use crate::trail::Trail;
use indexmap::IndexSet;
use std::alloc::{AllocError, Global};
use symbolic_nfa::{Nfa, State};

/// The pairs of states to which words lead, the initial one first.
pub(crate) fn reach(alloc: Global, left: &Nfa, right: &Nfa) -> Result<IndexSet<Pair>, EqualStop>
    requires { left.now.cells ≡ right.now.cells }
    ensures all { IfOk result (λ pairs. AreAll left.now right.now pairs.keys) }
    ensures too_many { result ≡ Err Reach → ReachPairs left.now.cells.layout.columns
        left.now.sets right.now.sets (max_reach + 1) }
{
    let alphabet = Alphabet::new(alloc, letters(alloc, left, right)?)?;
    let mut pairs = initial_pairs(alloc)?;
    explore(alloc, left, right, &alphabet, &mut pairs)?;
    Ok(pairs)
}

// The pair after the empty word.
fn initial_pairs(alloc: Global) -> Result<IndexSet<Pair>, AllocError>
    ensures { IfOk result (λ pairs.
        pairs.keys ≡ record { first = Initial; second = Initial } ∷ []) }
{
    let mut pairs = IndexSet::new(alloc);
    pairs.insert(Pair {
        first: State::Initial,
        second: State::Initial,
    })?;
    Ok(pairs)
}

// Appends all pairs to which words lead to the initial one.
fn explore(
    alloc: Global,
    first: &Nfa,
    second: &Nfa,
    alphabet: &Alphabet,
    pairs: &mut IndexSet<Pair>,
) -> Result<(), EqualStop>
    requires free { AreKnownFree alphabet.now.letters.items
        alphabet.now.free.first.items alphabet.now.free.second.items }
    requires letters { AreLetters first.now second.now alphabet.now.letters.items }
    requires initial { pairs.old.keys ≡ record { first = Initial; second = Initial } ∷ [] }
    ensures all { OnOk result (AreAll first.now second.now pairs.new.keys) }
    ensures too_many { result ≡ Err Reach → ReachPairs first.now.cells.layout.columns
        first.now.sets second.now.sets (max_reach + 1) }
{
    let mut trail = Trail::new(alloc)?;
    let mut next = 0;
    'pairs: while let Some(from) = pairs.get_index(next).copied() {
        // Only the ways on matter: items lead from pairs with the same ways on to the same pairs.
        let ways = (first.ways_on(from.first), second.ways_on(from.second));
        trail.go_along(alloc, alphabet, ways, pairs)?;
        next += 1;
    }
    Ok(())
}
