//! Queries rewritten by a few rules that change no answer.
#![tactic(auto)]

mod applying;
mod filling;
mod grouping;
mod laws;
mod levels;
mod literals;
mod merging;
mod nodes;
mod reading;
mod reducing;
mod rewriting;
mod turning;

pub use laws::rewriting_keeps_what_a_query_means;
pub use rewriting::rewrite;
