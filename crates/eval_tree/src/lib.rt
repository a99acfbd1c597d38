//! The value of a query on a word, found item by item. Starts, and values that wait, stand for all
//! readings of the word.
#![tactic(auto)]

mod apply;
mod atom;
mod calls;
mod choice;
mod collect;
mod combine;
mod compose;
mod iter;
mod keys;
mod left_values;
mod operands;
mod right_runners;
mod split;
mod steps;
mod tables;
mod values_so_far;

pub use calls::{start, step};
pub use keys::keys_push;
pub use right_runners::{carry, renew};
pub use tables::keys_table;
