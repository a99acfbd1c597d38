//! A value on no items, which the right operand of a compose reads before the first item comes.
#![tactic(auto)]

mod operands;

pub use operands::{EarlyValue, early_value};
