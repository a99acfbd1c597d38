//! A shortest word after which no further items lead to a value of a query, as lines of its stream.
#![tactic(auto)]

mod automaton;
mod ending;
mod laws;
mod lines;

pub use automaton::automaton_of;
pub use ending::{Ending, ending_of};
pub use laws::{ending_lines_are_read_to_their_items, going_on_leads_to_values};
