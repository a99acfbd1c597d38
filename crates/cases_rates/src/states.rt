//! The states after the beginnings of a word.

use crate::automata::nfa_of;
use crate::stop::Stop;
use item_schema::Item;
use predicate_cells::Cells;
use rate_expr::Rate;
use std::alloc::{AllocError, Global};
use std::rc::Rc;
use symbolic_nfa::{Nfa, State};
use value_ops::Field;

/// What the automaton of the rate answers before the word and after each of its items. Each digit
/// of the word is an item.
pub(crate) fn states(
    alloc: Global,
    cells: &Rc<Cells>,
    rate: &Rate,
    word: &str,
) -> Result<String, Stop> {
    let nfa = nfa_of(alloc, cells, rate)?;
    let mut state = State::Initial;
    let mut reported = String::new(alloc);
    reported.push(answer(&nfa, state))?;
    for digit in word.as_bytes() {
        state = stepped(alloc, &nfa, state, *digit)?;
        reported.push(answer(&nfa, state))?;
    }
    Ok(reported)
}

fn stepped(alloc: Global, nfa: &Nfa, state: State, digit: u8) -> Result<State, Stop> {
    let cell = nfa.cells().of(&item_of(alloc, digit)?);
    if !nfa.has_state(state) {
        return Err(Stop::Size);
    }
    Ok(nfa.step(state, cell))
}

fn item_of(alloc: Global, digit: u8) -> Result<Item<'static>, AllocError> {
    let number = i64::from(digit) - i64::from(b'0');
    Ok(Item::from_fields(vec![in alloc; Field::Int(number)]?))
}

/// Whether a word may end in the state, be extended by at least one item, both, or neither.
fn answer(nfa: &Nfa, state: State) -> char {
    match (nfa.accepts(state), nfa.extends(state)) {
        (true, true) => 'b',
        (true, false) => 'a',
        (false, true) => 'e',
        (false, false) => '-',
    }
}
