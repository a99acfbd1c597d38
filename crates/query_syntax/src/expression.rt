//! Expressions and comparisons.
use crate::{BinaryOp, Compare, Extremum, Index, Name, Number, Summary, Text, UnaryOp};
use few_parts::Few;
use language_base::Span;

/// An expression, with its names as they are written.
#[derive(Drop)]
#[cycle(expression)]
pub enum Expression {
    Number(Number),
    Name(Name),
    Unary {
        operator: UnaryOp,
        operand: Box<Expression>,
        span: Span,
    },
    Binary {
        operator: BinaryOp,
        left: Box<Expression>,
        right: Box<Expression>,
        span: Span,
    },
    If {
        test: Comparison,
        holds: Box<Expression>,
        fails: Box<Expression>,
        span: Span,
    },
    Summary {
        summary: Summary,
        table: Name,
        span: Span,
    },
    Extremum {
        extremum: Extremum,
        table: Name,
        first: Box<Expression>,
        span: Span,
    },
    Get {
        table: Name,
        key: Text,
        absent: Box<Expression>,
        span: Span,
    },
    /// The record of these parts.
    Record {
        parts: Few<Expression>,
        span: Span,
    },
    /// A part of the record that the name stands for.
    Part {
        whole: Name,
        index: Index,
        span: Span,
    },
}

#[derive(Drop)]
#[cycle(expression)]
pub struct Comparison {
    pub compare: Compare,
    pub left: Box<Expression>,
    pub right: Box<Expression>,
    pub span: Span,
}
