//! What all parts of the language share: bytes, places in a query text, operators, and the rules
//! that a query can break.
#![tactic(auto)]

mod binary;
mod bytes;
mod compare;
mod refusal;
mod rule;
mod span;
mod unary;

pub use binary::BinaryOp;
pub use bytes::Bytes;
pub use compare::Compare;
pub use refusal::Refusal;
pub use rule::Rule;
pub use span::Span;
pub use unary::UnaryOp;
