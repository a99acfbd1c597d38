//! The rules of query files before those of words: a syntax tree is a query with names resolved,
//! types that fit and sizes within the limits, or breaks a first of these rules.
#![tactic(auto)]

mod after_lets;
mod atom;
mod columns;
mod composed_cells;
mod expression;
mod expression_names;
mod key;
mod measurement;
mod nesting;
mod predicate;
mod query_types;
mod rate;
mod resolution;
mod shapes;
mod sizes;
mod stop;
mod stream_schema;
mod streams;
mod typed_expressions;
mod values;

pub use measurement::{Measured, measure};
pub use stop::CheckStop;
pub use values::values_of;
