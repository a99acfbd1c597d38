//! One call of the commands that save a run and go on from one that was saved.
#![tactic(auto)]

mod call;
mod command;
mod exit;
mod going_on;
mod last_line;
mod saving;

pub use call::snapshot;
pub use exit::Exit;
