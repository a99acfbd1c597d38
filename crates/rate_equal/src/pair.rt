//! The states of two automata after one word.
ghost use Rattle.std.specs.Prelude.{◌≡◌, ◌++◌};
ghost use Rattle.std.specs.Hash as fed;
ghost use Rattle.std.specs.Cmp.Rules.{hashing};
ghost use Rattle.std.proofs.Common.{rules};
ghost use Rattle.rate_equal.specs.Narrowed.{narrowed, narrowed_state};
ghost use Rattle.rate_equal.specs.Pairs.{mask_of};

use std::hash::{Hash, Hasher};
use symbolic_nfa::State;

#[derive(Clone, Copy, Debug, PartialEq, Eq)]
pub(crate) struct Pair {
    pub(crate) first: State,
    pub(crate) second: State,
}

impl Pair {
    /// The pair without the positions that are not on the ways.
    pub(crate) fn narrowed(self, ways: (u128, u128)) -> Pair
        ensures { result ≡ narrowed ways self }
    {
        Pair {
            first: narrowed_state(self.first, ways.0),
            second: narrowed_state(self.second, ways.1),
        }
    }
}

impl Hash for Pair {
    ghost hash_input = { λ p. fed.u128 (mask_of p.first) ++ fed.u128 (mask_of p.second) };

    ghost respects_eq = { Prim.search (hashing, rules) };

    fn hash<H: Hasher>(&self, state: &mut H) {
        state.write_u128(mask(self.first));
        state.write_u128(mask(self.second));
    }
}

pub(crate) fn mask(state: State) -> u128
    ensures { result ≡ mask_of state }
{
    match state {
        State::Initial => 0,
        State::At(mask) => mask,
    }
}

fn narrowed_state(state: State, ways: u128) -> State
    ensures { result ≡ narrowed_state ways state }
{
    match state {
        State::Initial => State::Initial,
        State::At(mask) => State::At(mask & ways),
    }
}
