//! How much nodes and runners keep.
#![tactic(auto)]

mod counts;
mod node_counts;

pub use counts::{size_of_runner, stored};
