//! The terms of a query text, as trees of its tokens.
#![tactic(auto)]

mod builder;
mod calls;
mod law;
mod reader;
mod reader_state;
mod stop;
mod term_span;
mod token_pass;
mod tree;

pub use calls::read_trees;
pub use law::one_list_of_terms;
pub use stop::TreeStop;
pub use tree::Tree;
