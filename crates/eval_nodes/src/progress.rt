//! How far a word of a query has come.

use crate::Node;
use value_ops::Value;

/// The node with the one start 0, how many items went by, and the value on them.
#[derive(Drop)]
#[cycle(node)]
pub struct Progress {
    pub node: Node,
    pub position: u64,
    pub answer: Option<Value>,
}
