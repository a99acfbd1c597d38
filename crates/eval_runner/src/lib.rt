//! The engine `run`: a checked query and how far a word of it has come. It takes the items one by
//! one.
#![tactic(auto)]

mod follower;
mod initial_state;
mod laws;
mod runner;

pub use laws::a_runner_keeps_its_slots_for_each_key;
pub use runner::Runner;
