//! Nodes and runners are copied, and nodes are emptied.
#![tactic(auto)]

mod copies;
mod empty_nodes;
mod node_copies;

pub use copies::{copy_of_node, copy_of_runner};
pub use empty_nodes::clear;
