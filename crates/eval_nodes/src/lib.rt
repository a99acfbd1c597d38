//! What is kept for a query while its word goes by, and which starts are live in it.
#![tactic(auto)]

mod liveness;
mod node;
mod progress;

pub use liveness::is_live;
pub use node::{Node, State};
pub use progress::Progress;
