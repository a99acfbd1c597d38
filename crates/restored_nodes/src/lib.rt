//! What follows a word of a query is put back from a dump.
#![tactic(auto)]

mod entries;
mod keys;
mod nodes;
mod operands;
mod restoration;
mod runners;
mod tracks;

pub use restoration::restored_runner;
