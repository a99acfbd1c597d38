//! The runner of a query, which can be kept in a snapshot and put back from one.
#![tactic(auto)]

mod follower;
mod keeping;
mod kept_runner;

pub use kept_runner::KeptRunner;
