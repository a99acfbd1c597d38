//! The canonical text of a query: a let for each node, and those that are written alike once.
#![tactic(auto)]

mod expression_text;
mod lets;
mod naming;
mod node_lets;
mod pieces;
mod predicate_text;
mod rate_text;
mod stream_text;
mod text;

pub use text::text_of;
