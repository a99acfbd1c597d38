//! Decisions on an automaton paired with itself.

use ambiguity_check::{disjoint, one_factoring, one_split};
use rate_equal::{EqualStop, same};
use std::alloc::Global;
use symbolic_nfa::Nfa;

/// What is decided.
#[derive(Clone, Copy)]
pub(crate) enum Decision {
    Disjoint,
    OneSplit,
    OneFactoring,
    Same,
}

impl Decision {
    /// Decides `times` times, and gives the last answer.
    pub(crate) fn repeated(self, alloc: Global, nfa: &Nfa, times: u32) -> Result<bool, EqualStop> {
        let mut answer = true;
        for _ in 0..times {
            answer = self.made(alloc, nfa)?;
        }
        Ok(answer)
    }

    fn made(self, alloc: Global, nfa: &Nfa) -> Result<bool, EqualStop> {
        match self {
            Decision::Disjoint => Ok(disjoint(alloc, nfa, nfa)?),
            Decision::OneSplit => Ok(one_split(alloc, nfa, nfa)?),
            Decision::OneFactoring => Ok(one_factoring(alloc, nfa)?),
            Decision::Same => same(alloc, nfa, nfa),
        }
    }
}
