//! The plainest item of a cell, for a person to read.
#![tactic(auto)]

mod choice;
mod nearest_number;
mod replacement;

pub use choice::plain_item;
