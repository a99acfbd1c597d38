//! What is kept of a runner: a dump, which says where the runner stands.
#![tactic(auto)]

mod dumps;
mod lists;
mod node_dumps;

pub use dumps::dump_of_runner;
