//! Reads and judges a query as a run of it does, and explains its refusal.
#![tactic(auto)]

mod call;
mod distinction;
mod explanations;
mod findings;
mod part_text;
mod query;
mod readings;
mod status;

pub use call::explain;
pub use query::explanation_of;
pub use status::Status;
