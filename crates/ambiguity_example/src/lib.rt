//! A shortest word that two rates share, or that a rate reads in two ways.
#![tactic(auto)]

mod confirmation;
mod cuts;
mod level_ends;
mod membership;
mod node_items;
mod pieces;
mod question;
mod reached_nodes;
mod shared_words;
mod shortest_example;
mod turns;
mod two_factorings;
mod two_readings;
mod two_splits;
mod walk;

pub use confirmation::confirm;
pub use cuts::Cuts;
pub use question::Ask;
pub use shortest_example::example;
pub use two_readings::Example;
