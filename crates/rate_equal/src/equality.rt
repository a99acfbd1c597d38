//! Whether two rates have the same words.
ghost use Rattle.std.specs.Prelude.{◌≡◌, ◌+◌, All, Any, Err, IfOk, MatchBool, OnOk};
ghost use Rattle.rate_expr.specs.Paths.{AreOf};
ghost use Rattle.rate_expr.specs.Rates.{Regex};
ghost use Rattle.rate_expr.specs.Readings.{AreEqual, HasAllButEmpty};
ghost use Rattle.rate_equal.specs.declared.stop.EqualStop.TheVariants.{Reach};
ghost use Rattle.rate_equal.specs.Endings.{Agree, Disagree, IsFull, IsLacking};
ghost use Rattle.rate_equal.specs.Differences.{HaveDifference, LacksSome};
ghost use Rattle.rate_equal.specs.Reach.{max_reach, ReachPairs, ReachStates};

use crate::pair::Pair;
use crate::search::reach;
use crate::stop::EqualStop;
use std::alloc::Global;
use symbolic_nfa::{Nfa, State};

/// Whether each word is in both rates or in neither.
pub fn same(alloc: Global, left: &Nfa, right: &Nfa) -> Result<bool, EqualStop>
    requires { left.now.cells ≡ right.now.cells }
    ensures answer { IfOk result (λ answer. (r s : Regex)
        → AreOf left.now.sets r → AreOf right.now.sets s → MatchBool answer
        (AreEqual left.now.cells.layout.columns r s)
        (HaveDifference left.now.cells.layout.columns r s)) }
    ensures few { OnOk result (ReachPairs left.now.cells.layout.columns
        left.now.sets right.now.sets (max_reach + 1) → ⊥) }
    ensures too_many { result ≡ Err Reach → ReachPairs left.now.cells.layout.columns
        left.now.sets right.now.sets (max_reach + 1) }
{
    let pairs = reach(alloc, left, right)?;
    Ok(agree(left, right, pairs.as_slice()))
}

/// Whether every word of at least one item is in the rate.
pub fn all_but_empty(alloc: Global, nfa: &Nfa) -> Result<bool, EqualStop>
    ensures answer { IfOk result (λ answer. (r : Regex) → AreOf nfa.now.sets r
        → MatchBool answer (HasAllButEmpty nfa.now.cells.layout.columns r)
        (LacksSome nfa.now.cells.layout.columns r)) }
    ensures few { OnOk result
        (ReachStates nfa.now.cells.layout.columns nfa.now.sets (max_reach + 1) → ⊥) }
    ensures too_many { result ≡ Err Reach
        → ReachStates nfa.now.cells.layout.columns nfa.now.sets (max_reach + 1) }
{
    // The pairs of an automaton with itself are its states.
    let pairs = reach(alloc, nfa, nfa)?;
    Ok(is_full(nfa, pairs.as_slice()))
}

// Whether in each pair both states are accepted or neither is.
fn agree(first: &Nfa, second: &Nfa, pairs: &[Pair]) -> bool
    ensures { MatchBool result (All (Agree first.now.sets second.now.sets) pairs.now)
        (Any (Disagree first.now.sets second.now.sets) pairs.now) }
{
    'pairs: for pair in pairs {
        if first.accepts(pair.first) != second.accepts(pair.second) {
            return false;
        }
    }
    true
}

// Whether each state but the initial one is accepted.
fn is_full(nfa: &Nfa, pairs: &[Pair]) -> bool
    ensures { MatchBool result (All (IsFull nfa.now.sets) pairs.now)
        (Any (IsLacking nfa.now.sets) pairs.now) }
{
    'pairs: for pair in pairs {
        if pair.first != State::Initial && !nfa.accepts(pair.first) {
            return false;
        }
    }
    true
}
