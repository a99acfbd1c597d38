//! Whether two rates share a word of items, and whether words split or factor in one way.
#![tactic(auto)]

mod factorings;
mod graph;
mod laws;
mod level;
mod marks;
mod meetings;
mod overlaps;
mod reachability;
mod readings;
mod search;
mod splits;

pub use factorings::{Factorings, one_factoring};
pub use graph::{Graph, Move, Moves, Node, Phase};
pub use laws::{
    all_are_seen_after_an_empty_level, overlaps_are_walks, two_factorings_are_walks,
    two_splits_are_walks,
};
pub use marks::Marks;
pub use overlaps::{Pairs, disjoint};
pub use search::Search;
pub use splits::{Splits, one_split};
