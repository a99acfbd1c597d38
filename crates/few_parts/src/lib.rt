//! The parts of a record: two to eight of any type.
#![tactic(auto)]

mod few;

pub use few::Few;
