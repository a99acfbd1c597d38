//! The text of a query is that of the query: read again, it gives the same.
#![tactic(auto)]

mod laws;

pub use laws::texts_read_back;
