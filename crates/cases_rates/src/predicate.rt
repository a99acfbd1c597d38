//! Predicates over the columns of a stream.

use crate::scope::Scope;
use crate::stop::Stop;
use predicates::Pred;
use query_syntax::{Connective, Equality, Literal, Name, Order, Predicate};
use std::alloc::{AllocError, Global};

#[cycle(predicate)]
pub(crate) fn pred_over(alloc: Global, scope: &Scope, predicate: &Predicate) -> Result<Pred, Stop> {
    match predicate {
        Predicate::Any(_) => Ok(Pred::Any),
        Predicate::Equality {
            equality,
            column,
            literal,
            ..
        } => equality_over(alloc, scope, *equality, column, literal),
        Predicate::Order {
            order,
            column,
            bound,
            ..
        } => order_over(scope, *order, column, bound.value),
        Predicate::Between {
            column,
            low,
            high,
            ..
        } => between_over(scope, column, low.value, high.value),
        Predicate::IsNum { column, .. } => is_num_over(scope, column),
        Predicate::Joined {
            connective,
            left,
            right,
            ..
        } => joined_over(alloc, scope, *connective, left, right),
        Predicate::Not { operand, .. } => negated_over(alloc, scope, operand),
    }
}

#[cycle(predicate)]
fn boxed_over(alloc: Global, scope: &Scope, predicate: &Predicate) -> Result<Box<Pred>, Stop> {
    let pred = pred_over(alloc, scope, predicate)?;
    Ok(Box::new(alloc, pred)?)
}

#[cycle(predicate)]
fn joined_over(
    alloc: Global,
    scope: &Scope,
    connective: Connective,
    left: &Predicate,
    right: &Predicate,
) -> Result<Pred, Stop> {
    let left = boxed_over(alloc, scope, left)?;
    let right = boxed_over(alloc, scope, right)?;
    Ok(match connective {
        Connective::And => Pred::And(left, right),
        Connective::Or => Pred::Or(left, right),
    })
}

#[cycle(predicate)]
fn negated_over(alloc: Global, scope: &Scope, operand: &Predicate) -> Result<Pred, Stop> {
    Ok(Pred::Not(boxed_over(alloc, scope, operand)?))
}

fn equality_over(
    alloc: Global,
    scope: &Scope,
    equality: Equality,
    column: &Name,
    literal: &Literal,
) -> Result<Pred, Stop> {
    let column = scope.column(column)?;
    Ok(equality_test(alloc, equality, literal, column)?)
}

fn order_over(scope: &Scope, order: Order, column: &Name, bound: i64) -> Result<Pred, Stop> {
    Ok(order_test(order, bound, scope.column(column)?))
}

fn between_over(scope: &Scope, column: &Name, low: i64, high: i64) -> Result<Pred, Stop> {
    Ok(Pred::Between(scope.column(column)?, low, high))
}

fn is_num_over(scope: &Scope, column: &Name) -> Result<Pred, Stop> {
    Ok(Pred::IsNum(scope.column(column)?))
}

fn equality_test(
    alloc: Global,
    equality: Equality,
    literal: &Literal,
    column: u32,
) -> Result<Pred, AllocError> {
    match (equality, literal) {
        (Equality::Eq, Literal::Number(number)) => Ok(Pred::Eq(column, number.value)),
        (Equality::Ne, Literal::Number(number)) => Ok(Pred::Ne(column, number.value)),
        (Equality::Eq, Literal::Text(text)) => {
            Ok(Pred::EqText(column, text.bytes.try_copy(alloc)?))
        }
        (Equality::Ne, Literal::Text(text)) => {
            Ok(Pred::NeText(column, text.bytes.try_copy(alloc)?))
        }
    }
}

fn order_test(order: Order, bound: i64, column: u32) -> Pred {
    match order {
        Order::Lt => Pred::Lt(column, bound),
        Order::Le => Pred::Le(column, bound),
        Order::Gt => Pred::Gt(column, bound),
        Order::Ge => Pred::Ge(column, bound),
    }
}
