//! Expressions: their types, and what they give.
#![tactic(auto)]

mod copies;
mod evaluator;
mod expr;
mod inputs;
mod laws;
mod typing;

pub use expr::{Expr, Exprs, Var};
pub use laws::typed_expressions_have_values;
pub use typing::Types;
