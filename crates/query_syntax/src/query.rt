//! Queries.
use crate::{Expression, Key, Name, Number, Predicate, Rate};
use language_base::Span;

/// A query, with its names as they are written.
#[derive(Drop)]
pub enum Query {
    /// The query of an earlier let.
    Name(Name),
    Atom {
        predicate: Box<Predicate>,
        value: Box<Expression>,
        span: Span,
    },
    Eps {
        value: Number,
        span: Span,
    },
    Or {
        left: Box<Query>,
        right: Box<Query>,
        span: Span,
    },
    Split {
        left: Box<Query>,
        right: Box<Query>,
        value: Box<Expression>,
        span: Span,
    },
    Iter {
        operand: Box<Query>,
        first: Number,
        step: Box<Expression>,
        span: Span,
    },
    Combine {
        left: Box<Query>,
        right: Box<Query>,
        value: Box<Expression>,
        span: Span,
    },
    Apply {
        operand: Box<Query>,
        value: Box<Expression>,
        span: Span,
    },
    Compose {
        left: Box<Query>,
        right: Box<Query>,
        span: Span,
    },
    Collect {
        key: Box<Key>,
        sync: Box<Predicate>,
        rate: Box<Rate>,
        body: Box<Query>,
        span: Span,
    },
}
