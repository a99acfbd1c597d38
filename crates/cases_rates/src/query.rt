//! Queries over the columns of a stream. What they compute is left out, since no table asks for it.

use crate::predicate::pred_over;
use crate::rate::rate_over;
use crate::scope::Scope;
use crate::stop::Stop;
use expressions::{Expr, Var};
use predicates::Pred;
use query_model::{KeyColumns, Query, Shape, Span};
use query_syntax::{Key, Name, Predicate};
use rate_expr::Rate;
use std::alloc::Global;

#[cycle(query)]
pub(crate) fn query_over(
    alloc: Global,
    scope: &Scope,
    query: &query_syntax::Query,
) -> Result<Box<Query>, Stop> {
    let shape = shape_over(alloc, scope, query)?;
    let span = Span { from: 0, to: 1 };
    Ok(Box::new(alloc, Query { shape, span })?)
}

#[cycle(query)]
fn shape_over(alloc: Global, scope: &Scope, query: &query_syntax::Query) -> Result<Shape, Stop> {
    match query {
        query_syntax::Query::Name(name) => named_shape(alloc, scope, name),
        query_syntax::Query::Atom { predicate, .. } => atom_over(alloc, scope, predicate),
        query_syntax::Query::Eps { value, .. } => Ok(Shape::Eps(value.value)),
        query_syntax::Query::Or { left, right, .. } => choice_over(alloc, scope, left, right),
        query_syntax::Query::Split { left, right, .. } => split_over(alloc, scope, left, right),
        query_syntax::Query::Combine { left, right, .. } => {
            combination_over(alloc, scope, left, right)
        }
        query_syntax::Query::Compose { left, right, .. } => {
            composition_over(alloc, scope, left, right)
        }
        query_syntax::Query::Iter { operand, first, .. } => {
            iteration_over(alloc, scope, operand, first.value)
        }
        query_syntax::Query::Apply { operand, .. } => application_over(alloc, scope, operand),
        query_syntax::Query::Collect {
            key,
            sync,
            rate,
            body,
            ..
        } => collection_over(alloc, scope, key, sync, rate, body),
    }
}

fn named_shape(alloc: Global, scope: &Scope, name: &Name) -> Result<Shape, Stop> {
    Ok(scope.named(name)?.try_copy(alloc)?.shape)
}

fn atom_over(alloc: Global, scope: &Scope, predicate: &Predicate) -> Result<Shape, Stop> {
    Ok(Shape::Atom(pred_over(alloc, scope, predicate)?, value()))
}

#[cycle(query)]
fn both_over(
    alloc: Global,
    scope: &Scope,
    left: &query_syntax::Query,
    right: &query_syntax::Query,
) -> Result<(Box<Query>, Box<Query>), Stop> {
    let first = query_over(alloc, scope, left)?;
    Ok((first, query_over(alloc, scope, right)?))
}

#[cycle(query)]
fn choice_over(
    alloc: Global,
    scope: &Scope,
    left: &query_syntax::Query,
    right: &query_syntax::Query,
) -> Result<Shape, Stop> {
    let (first, second) = both_over(alloc, scope, left, right)?;
    Ok(Shape::Or(first, second))
}

#[cycle(query)]
fn split_over(
    alloc: Global,
    scope: &Scope,
    left: &query_syntax::Query,
    right: &query_syntax::Query,
) -> Result<Shape, Stop> {
    let (first, second) = both_over(alloc, scope, left, right)?;
    Ok(Shape::Split(first, second, value()))
}

#[cycle(query)]
fn combination_over(
    alloc: Global,
    scope: &Scope,
    left: &query_syntax::Query,
    right: &query_syntax::Query,
) -> Result<Shape, Stop> {
    let (first, second) = both_over(alloc, scope, left, right)?;
    Ok(Shape::Combine(first, second, value()))
}

#[cycle(query)]
fn composition_over(
    alloc: Global,
    scope: &Scope,
    left: &query_syntax::Query,
    right: &query_syntax::Query,
) -> Result<Shape, Stop> {
    let (first, second) = both_over(alloc, scope, left, right)?;
    Ok(Shape::Compose(first, second))
}

#[cycle(query)]
fn iteration_over(
    alloc: Global,
    scope: &Scope,
    operand: &query_syntax::Query,
    first: i64,
) -> Result<Shape, Stop> {
    let inner = query_over(alloc, scope, operand)?;
    Ok(Shape::Iter(inner, first, value()))
}

#[cycle(query)]
fn application_over(
    alloc: Global,
    scope: &Scope,
    operand: &query_syntax::Query,
) -> Result<Shape, Stop> {
    Ok(Shape::Apply(query_over(alloc, scope, operand)?, value()))
}

#[cycle(query)]
fn collection_over(
    alloc: Global,
    scope: &Scope,
    key: &Key,
    sync: &Predicate,
    rate: &query_syntax::Rate,
    body: &query_syntax::Query,
) -> Result<Shape, Stop> {
    let columns = columns_of(alloc, scope, key)?;
    let inner = query_over(alloc, scope, body)?;
    let (sync, rate) = keys_over(alloc, scope, sync, rate)?;
    Ok(Shape::Collect(columns, sync, rate, inner))
}

fn columns_of(alloc: Global, scope: &Scope, key: &Key) -> Result<KeyColumns, Stop> {
    let mut at = Vec::new(alloc);
    'names: for name in key.names() {
        at.push(scope.column(name)?)?;
    }
    Ok(KeyColumns::of(at))
}

/// The predicate for items of all keys, and the rate.
fn keys_over(
    alloc: Global,
    scope: &Scope,
    sync: &Predicate,
    rate: &query_syntax::Rate,
) -> Result<(Pred, Rate), Stop> {
    let sync = pred_over(alloc, scope, sync)?;
    Ok((sync, rate_over(alloc, scope, rate)?))
}

fn value() -> Expr {
    Expr::Read(Var::Left)
}
