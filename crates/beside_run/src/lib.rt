//! One call of the commands that show answers beside their lines, or the last answer alone.
#![tactic(auto)]

mod call;
mod command;
mod engine;
mod exit;
mod last_line;
mod outputs;
mod queries;
mod sessions;
mod streams;

pub use call::beside;
pub use exit::Exit;
