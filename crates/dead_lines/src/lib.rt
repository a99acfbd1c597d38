//! The first line of a stream after which no further items lead to a value of a query.
#![tactic(auto)]

mod course;
mod dead_text;
mod report;
mod watch;

pub use course::DeadLine;
pub use report::write_dead_line;
