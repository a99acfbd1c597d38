//! Automata of rates over cells. They decide whether a word is in the rate, and whether it can be
//! extended to one that is.
#![tactic(auto)]

mod ends;
mod laws;
mod met_positions;
mod nfa;
mod ways_on;

pub use laws::{acceptance_is_membership, extending_is_having_an_extension, steps_lead_on};
pub use nfa::Nfa;
pub use rate_expr::State;
