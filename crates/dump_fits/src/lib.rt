//! Whether a dump fits a query: it has the query's shape, and is no larger than what a runner of
//! the query keeps.
#![tactic(auto)]

mod entries;
mod fitting;
mod instances;
mod nodes;
mod runners;
mod states;
mod stream;
mod tracks;
mod value_types;

pub use fitting::fits;
