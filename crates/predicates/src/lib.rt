//! Predicates, and whether items meet them.
#![tactic(auto)]

mod copies;
mod equality;
mod pred;
mod preds;
mod row;
mod truth;
mod validity;

pub use pred::Pred;
pub use preds::Preds;
pub use row::{Fields, Row, number_in};
pub use truth::{holds, holds_in};
