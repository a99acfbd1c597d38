//! How much an engine keeps for a query, known before the first item.
#![tactic(auto)]

mod bounds;
mod demand;

pub use bounds::{places, slots, width};
