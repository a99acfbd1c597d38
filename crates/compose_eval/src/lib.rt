//! The followers of the right operand of a compose: those that starts feed, and idle ones.
#![tactic(auto)]

mod instance;
mod instances;

pub use instance::Instance;
pub use instances::Instances;
