//! The texts that a run writes. Each of their lines ends with an LF.
#![tactic(auto)]

mod answer;
mod command;
mod example;
mod key_text;
mod record_text;
mod refusal;
mod skip;
mod table_text;

pub use answer::push_answer;
pub use command::{bound_text, check_text, drill_text};
pub use example::example_text;
pub use refusal::refusal_text;
pub use skip::push_skip;
