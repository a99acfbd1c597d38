//! The text of a query that was rewritten compiles to the rewritten query.
#![tactic(auto)]

mod laws;

pub use laws::{
    compiled_queries_can_be_written, rewriting_keeps_what_can_be_written, rewritten_texts_compile,
};
