//! The checker of query files: a syntax tree is a query with one meaning, or breaks a first rule.
#![tactic(auto)]

mod blame;
mod judgment;
mod laws;
mod roots;
mod standing;
mod verdict;
mod word_rules;
mod word_stop;
mod words;

pub use blame::{Ambiguity, Blame, Operands};
pub use judgment::Judgment;
pub use laws::{blame_refuses, one_verdict};
pub use verdict::{check, judge};
