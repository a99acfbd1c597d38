//! A live start of a collect.

use crate::Keys;
use symbolic_nfa::State;

/// The word from the start on has led the rate's automaton to the state, and the followers to the
/// values for each key.
#[derive(Drop)]
pub struct Track<R> {
    pub start: u64,
    pub state: State,
    pub keys: Keys<R>,
}
