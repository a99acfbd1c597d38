//! What is done with an automaton, often enough to be measured.
ghost use Rattle.std.specs.Prelude.{◌<◌};
ghost use Rattle.predicate_cells.specs.Cells.{cell_count};

use crate::decision::Decision;
use item_schema::Item;
use rate_equal::EqualStop;
use std::alloc::{AllocError, Global};
use symbolic_nfa::{Nfa, State};
use value_ops::Field;

/// A kind of work.
#[derive(Clone, Copy)]
pub(crate) enum Work {
    /// A step from state to state.
    Step,
    /// A step, and whether a word can be extended after it.
    Extends,
    Decide(Decision),
}

impl Work {
    pub(crate) fn named(name: &str) -> Option<Work> {
        match name {
            "step" => Some(Work::Step),
            "extends" => Some(Work::Extends),
            "disjoint" => Some(Work::Decide(Decision::Disjoint)),
            "one_split" => Some(Work::Decide(Decision::OneSplit)),
            "one_factoring" => Some(Work::Decide(Decision::OneFactoring)),
            "same" => Some(Work::Decide(Decision::Same)),
            _ => None,
        }
    }

    /// Does the work `times` times, and gives the last answer.
    pub(crate) fn done(self, alloc: Global, nfa: &Nfa, times: u32) -> Result<bool, EqualStop> {
        let cell = nfa.cells().of(&greatest(alloc)?);
        match self {
            Work::Step => Ok(nfa.accepts(after(nfa, cell, times))),
            Work::Extends => Ok(all_extend(nfa, cell, times)),
            Work::Decide(decision) => decision.repeated(alloc, nfa, times),
        }
    }
}

// An item that meets every test.
fn greatest(alloc: Global) -> Result<Item<'static>, AllocError> {
    let fields = vec![in alloc; Field::Int(i64::MAX), Field::Int(i64::MAX)]?;
    Ok(Item::from_fields(fields))
}

// The state after `times` items of the cell.
fn after(nfa: &Nfa, cell: u32, times: u32) -> State
    requires { cell < cell_count nfa.now.cells }
{
    let mut state = State::Initial;
    'items: for _ in 0..times {
        state = nfa.step(state, cell);
    }
    state
}

// Whether a word can be extended after each of `times` items of the cell.
fn all_extend(nfa: &Nfa, cell: u32, times: u32) -> bool
    requires { cell < cell_count nfa.now.cells }
{
    let mut state = State::Initial;
    let mut all = true;
    'items: for _ in 0..times {
        state = nfa.step(state, cell);
        all &= nfa.extends(state);
    }
    all
}
