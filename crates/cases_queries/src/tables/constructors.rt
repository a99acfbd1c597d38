//! The constructors that queries are read to.

use crate::tables::refusal::refused;
use query_parser::ReadStop;
use query_syntax::{
    BinaryOp, Compare, Connective, Equality, Expression, Extremum, Join, Key, Literal, Order,
    Predicate, Query, Rate, Summary, UnaryOp, read_syntax,
};
use std::alloc::{AllocError, Global};

/// The constructor of the query, with those of the predicate and the value of an atom or of the key
/// and the rate of a collection, or the refusal if the query is not read.
pub(crate) fn constructors(alloc: Global, query: &[u8]) -> Result<String, AllocError> {
    match read_syntax(alloc, query) {
        Ok(program) => query_constructors(alloc, &program.main.query),
        Err(ReadStop::Refused(refusal)) => refused(alloc, query, refusal),
        Err(ReadStop::Memory) => Err(AllocError),
    }
}

fn query_constructors(alloc: Global, query: &Query) -> Result<String, AllocError> {
    match query {
        Query::Atom {
            predicate,
            value,
            ..
        } => {
            let (test, value) = (
                predicate_constructor(predicate),
                expression_constructor(value),
            );
            format!(in alloc; "atom of {test} and {value}")
        }
        Query::Collect { key, rate, .. } => {
            let (key, rate) = (key_constructor(key), rate_constructor(rate));
            format!(in alloc; "collect of {key} and {rate}")
        }
        Query::Name(_) => String::from_str(alloc, "name"),
        Query::Eps { .. } => String::from_str(alloc, "eps"),
        Query::Or { .. } => String::from_str(alloc, "or"),
        Query::Split { .. } => String::from_str(alloc, "split"),
        Query::Iter { .. } => String::from_str(alloc, "iter"),
        Query::Combine { .. } => String::from_str(alloc, "combine"),
        Query::Apply { .. } => String::from_str(alloc, "apply"),
        Query::Compose { .. } => String::from_str(alloc, "compose"),
    }
}

fn key_constructor(key: &Key) -> &'static str {
    match key {
        Key::Column(_) => "column",
        Key::Columns(..) => "columns",
    }
}

fn expression_constructor(expression: &Expression) -> &'static str {
    match expression {
        Expression::Number(_) => "number",
        Expression::Name(_) => "name",
        Expression::Unary { operator, .. } => match operator {
            UnaryOp::Neg => "neg",
            UnaryOp::Abs => "abs",
        },
        Expression::Binary { operator, .. } => match operator {
            BinaryOp::Add => "add",
            BinaryOp::Sub => "sub",
            BinaryOp::Mul => "mul",
            BinaryOp::Div => "div",
            BinaryOp::Rem => "rem",
            BinaryOp::Min => "min",
            BinaryOp::Max => "max",
        },
        Expression::If { test, .. } => match test.compare {
            Compare::Lt => "if lt",
            Compare::Le => "if le",
            Compare::Gt => "if gt",
            Compare::Ge => "if ge",
            Compare::Eq => "if eq",
            Compare::Ne => "if ne",
        },
        Expression::Summary { summary, .. } => match summary {
            Summary::Sum => "tsum",
            Summary::Count => "tcount",
        },
        Expression::Extremum { extremum, .. } => match extremum {
            Extremum::Max => "tmax",
            Extremum::Min => "tmin",
        },
        Expression::Get { .. } => "tget",
        Expression::Record { .. } => "rec",
        Expression::Part { .. } => "part",
    }
}

fn predicate_constructor(predicate: &Predicate) -> &'static str {
    match predicate {
        Predicate::Any(_) => "any",
        Predicate::Equality {
            equality: Equality::Eq,
            literal: Literal::Number(_),
            ..
        } => "eq",
        Predicate::Equality {
            equality: Equality::Eq,
            ..
        } => "eq text",
        Predicate::Equality { .. } => "ne",
        Predicate::Order { order, .. } => match order {
            Order::Lt => "lt",
            Order::Le => "le",
            Order::Gt => "gt",
            Order::Ge => "ge",
        },
        Predicate::Between { .. } => "between",
        Predicate::IsNum { .. } => "isnum",
        Predicate::Joined { connective, .. } => match connective {
            Connective::And => "and",
            Connective::Or => "or",
        },
        Predicate::Not { .. } => "not",
    }
}

fn rate_constructor(rate: &Rate) -> &'static str {
    match rate {
        Rate::Eps(_) => "eps",
        Rate::Item { .. } => "item",
        Rate::Joined { join, .. } => match join {
            Join::Seq => "seq",
            Join::Alt => "alt",
        },
        Rate::Star { .. } => "star",
    }
}
