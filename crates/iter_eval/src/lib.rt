//! The values so far of an iteration, which wait until a further piece ends after them.
#![tactic(auto)]

mod chain;

pub use chain::Chain;
