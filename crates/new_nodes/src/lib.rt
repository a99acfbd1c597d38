//! Nodes are made for a query.
#![tactic(auto)]

mod automaton;
mod cells;
mod construction;
mod new_nodes;

pub use automaton::no_tracks;
pub use cells::{has_no_collect, stream_cells};
pub use construction::new_node;
