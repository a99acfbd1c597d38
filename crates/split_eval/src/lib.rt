//! The left values of a split, which wait until the right operand has a value on the words after
//! them.
#![tactic(auto)]

mod entry;
mod laws;
mod pending;

pub use entry::Entry;
pub use pending::Pending;
