//! A query text: read from its source and compiled to a checked query, or why it is none.
#![tactic(auto)]

mod laws;
mod query;

pub use laws::one_query_per_text;
pub use query::{MAX_READ, QueryStop, compile, compile_text};
