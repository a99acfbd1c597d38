//! One run of the program: from its words, a query and items to a status and what was written.
#![tactic(auto)]

mod blame_text;
mod call;
mod command;
mod drill_engine;
mod engine;
mod laws;
mod rewritten_text;
mod room;
mod run_engine;

pub use call::sqre;
pub use laws::{queries_have_meanings, whole_lines_come_first};
pub use room::run_into_room;
