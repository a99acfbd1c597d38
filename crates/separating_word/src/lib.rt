//! A shortest word on which only one of two queries has a value, as lines of their stream.
#![tactic(auto)]

mod automata;
mod known_pairs;
mod letters;
mod line;
mod line_value;
mod search;
mod separation;
mod separation_text;

pub use separation::{Separation, Side, distinguish};
pub use separation_text::push_separation;
