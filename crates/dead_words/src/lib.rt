//! How far the words of a rate go on: a shortest one after which no further items lead to a word
//! of the rate, or that there is none.
#![tactic(auto)]

mod known_states;
mod letters;
mod outlook;
mod search;

pub use outlook::{Outlook, outlook_of};
