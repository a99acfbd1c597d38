//! Rates over the columns of a stream.

use crate::predicate::pred_over;
use crate::scope::Scope;
use crate::stop::Stop;
use query_syntax::{Join, Predicate};
use rate_expr::Rate;
use std::alloc::Global;

#[cycle(rate)]
pub(crate) fn rate_over(
    alloc: Global,
    scope: &Scope,
    rate: &query_syntax::Rate,
) -> Result<Rate, Stop> {
    match rate {
        query_syntax::Rate::Eps(_) => Ok(Rate::Empty),
        query_syntax::Rate::Item { predicate, .. } => item_over(alloc, scope, predicate),
        query_syntax::Rate::Joined {
            join,
            left,
            right,
            ..
        } => joined_over(alloc, scope, *join, left, right),
        query_syntax::Rate::Star { operand, .. } => star_over(alloc, scope, operand),
    }
}

fn item_over(alloc: Global, scope: &Scope, predicate: &Predicate) -> Result<Rate, Stop> {
    Ok(Rate::One(pred_over(alloc, scope, predicate)?))
}

#[cycle(rate)]
fn boxed_over(alloc: Global, scope: &Scope, rate: &query_syntax::Rate) -> Result<Box<Rate>, Stop> {
    let rate = rate_over(alloc, scope, rate)?;
    Ok(Box::new(alloc, rate)?)
}

#[cycle(rate)]
fn joined_over(
    alloc: Global,
    scope: &Scope,
    join: Join,
    left: &query_syntax::Rate,
    right: &query_syntax::Rate,
) -> Result<Rate, Stop> {
    let left = boxed_over(alloc, scope, left)?;
    let right = boxed_over(alloc, scope, right)?;
    Ok(match join {
        Join::Seq => Rate::Seq(left, right),
        Join::Alt => Rate::Alt(left, right),
    })
}

#[cycle(rate)]
fn star_over(alloc: Global, scope: &Scope, operand: &query_syntax::Rate) -> Result<Rate, Stop> {
    Ok(Rate::Star(boxed_over(alloc, scope, operand)?))
}
