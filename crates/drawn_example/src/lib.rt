//! A word with two readings, drawn for a person: a line for each item, and beside it what reads the
//! item.
#![tactic(auto)]

mod cell;
mod drawing;
mod pieces;
mod readers;
mod row;
mod rows;
mod window;

pub use drawing::drawing_of;
pub use readers::Readers;
