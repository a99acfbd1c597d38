//! Predicates on items.
use crate::{Connective, Equality, Literal, Name, Number, Order};
use language_base::Span;

/// A test of the field in a column, or tests joined.
#[derive(Drop)]
pub enum Predicate {
    Any(Span),
    Equality {
        equality: Equality,
        column: Name,
        literal: Literal,
        span: Span,
    },
    Order {
        order: Order,
        column: Name,
        bound: Number,
        span: Span,
    },
    /// From the first number to the second, both included.
    Between {
        column: Name,
        low: Number,
        high: Number,
        span: Span,
    },
    IsNum {
        column: Name,
        span: Span,
    },
    Joined {
        connective: Connective,
        left: Box<Predicate>,
        right: Box<Predicate>,
        span: Span,
    },
    Not {
        operand: Box<Predicate>,
        span: Span,
    },
}
