//! What a step of a node gives, and the laws of steps.
#![tactic(auto)]

mod hit;

pub use hit::{Hit, put_answer, put_if_none, put_number, value_of};
