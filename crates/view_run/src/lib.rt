//! One call of the commands that show the lines of a stream with their answers.
#![tactic(auto)]

mod call;
mod command;
mod engine;
mod sheet;
mod units;

pub use call::view;
