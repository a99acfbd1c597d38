//! Queries rewritten node by node, operands first.
ghost use Rattle.std.specs.Prelude.{◌≡◌, IfOk};
ghost use Rattle.predicates.specs.Plain as predicates;
ghost use Rattle.query_model.specs.Queries.{atom, collect, combine, iter, plain_of, split};
ghost use Rattle.query_rewrite.specs.Reducing.{reduced};
ghost use Rattle.query_rewrite.specs.Steps.{applied, chosen, fed, rewritten};
ghost use Rattle.rate_expr.specs.Plain as rates;
ghost use Rattle.expressions.specs.Expressions as values;

use crate::applying::merge_applies;
use crate::grouping::{group_from_left, group_from_right};
use crate::reducing::reduced;
use expressions::Expr;
use predicates::Pred;
use query_model::{KeyColumns, Query, Shape, Span};
use rate_expr::Rate;
use std::alloc::{AllocError, Global};

/// The query with each rule applied at each node; each node has the place of the one that
/// it is made of.
#[cycle(rewrite)]
pub(crate) fn rewritten(query: &Query, alloc: Global) -> Result<Box<Query>, AllocError>
    ensures { IfOk result (λ made.
        plain_of made.value.shape ≡ rewritten (plain_of query.now.shape)) }
{
    let span = query.span;
    match &query.shape {
        Shape::Atom(pred, value) => rewritten_atom(pred, value, span, alloc),
        Shape::Eps(number) => boxed(Shape::Eps(*number), span, alloc),
        Shape::Or(left, right) => rewritten_choice(left, right, span, alloc),
        Shape::Split(left, right, value) => rewritten_split(left, right, value, span, alloc),
        Shape::Iter(inner, number, value) => rewritten_iter(inner, *number, value, span, alloc),
        Shape::Combine(left, right, value) => rewritten_combine(left, right, value, span, alloc),
        Shape::Apply(inner, value) => rewritten_apply(inner, value, span, alloc),
        Shape::Compose(left, right) => rewritten_compose(left, right, span, alloc),
        Shape::Collect(columns, sync, rate, inner) => {
            rewritten_collect(columns, sync, rate, inner, span, alloc)
        }
    }
}

fn boxed(shape: Shape, span: Span, alloc: Global) -> Result<Box<Query>, AllocError>
    ensures { IfOk result (λ made. made.value.shape ≡ shape) }
{
    Ok(Box::new(alloc, Query { shape, span })?)
}

fn rewritten_atom(
    pred: &Pred,
    value: &Expr,
    span: Span,
    alloc: Global,
) -> Result<Box<Query>, AllocError>
    ensures { IfOk result (λ made. plain_of made.value.shape
        ≡ atom (predicates.plain_of pred.now) (reduced (values.plain_of value.now))) }
{
    let pred = pred.try_copy(alloc)?;
    boxed(Shape::Atom(pred, reduced(value, alloc)?), span, alloc)
}

#[cycle(rewrite)]
fn rewritten_choice(
    left: &Query,
    right: &Query,
    span: Span,
    alloc: Global,
) -> Result<Box<Query>, AllocError>
    ensures { IfOk result (λ made. plain_of made.value.shape
        ≡ chosen (rewritten (plain_of left.now.shape)) (rewritten (plain_of right.now.shape))) }
{
    let mut left = rewritten(left, alloc)?;
    let mut right = rewritten(right, alloc)?;
    group_from_right(&mut left, &mut right);
    boxed(Shape::Or(left, right), span, alloc)
}

#[cycle(rewrite)]
fn rewritten_split(
    left: &Query,
    right: &Query,
    value: &Expr,
    span: Span,
    alloc: Global,
) -> Result<Box<Query>, AllocError>
    ensures { IfOk result (λ made. plain_of made.value.shape
        ≡ split (rewritten (plain_of left.now.shape)) (rewritten (plain_of right.now.shape))
        (reduced (values.plain_of value.now))) }
{
    let left = rewritten(left, alloc)?;
    let right = rewritten(right, alloc)?;
    boxed(
        Shape::Split(left, right, reduced(value, alloc)?),
        span,
        alloc,
    )
}

#[cycle(rewrite)]
fn rewritten_iter(
    inner: &Query,
    number: i64,
    value: &Expr,
    span: Span,
    alloc: Global,
) -> Result<Box<Query>, AllocError>
    ensures { IfOk result (λ made. plain_of made.value.shape
        ≡ iter (rewritten (plain_of inner.now.shape)) number
        (reduced (values.plain_of value.now))) }
{
    let inner = rewritten(inner, alloc)?;
    boxed(
        Shape::Iter(inner, number, reduced(value, alloc)?),
        span,
        alloc,
    )
}

#[cycle(rewrite)]
fn rewritten_combine(
    left: &Query,
    right: &Query,
    value: &Expr,
    span: Span,
    alloc: Global,
) -> Result<Box<Query>, AllocError>
    ensures { IfOk result (λ made. plain_of made.value.shape
        ≡ combine (rewritten (plain_of left.now.shape)) (rewritten (plain_of right.now.shape))
        (reduced (values.plain_of value.now))) }
{
    let left = rewritten(left, alloc)?;
    let right = rewritten(right, alloc)?;
    boxed(
        Shape::Combine(left, right, reduced(value, alloc)?),
        span,
        alloc,
    )
}

#[cycle(rewrite)]
fn rewritten_apply(
    inner: &Query,
    value: &Expr,
    span: Span,
    alloc: Global,
) -> Result<Box<Query>, AllocError>
    ensures { IfOk result (λ made. plain_of made.value.shape
        ≡ applied (rewritten (plain_of inner.now.shape)) (reduced (values.plain_of value.now))) }
{
    let mut inner = rewritten(inner, alloc)?;
    let mut value = reduced(value, alloc)?;
    merge_applies(&mut inner, &mut value, alloc)?;
    boxed(Shape::Apply(inner, value), span, alloc)
}

#[cycle(rewrite)]
fn rewritten_compose(
    left: &Query,
    right: &Query,
    span: Span,
    alloc: Global,
) -> Result<Box<Query>, AllocError>
    ensures { IfOk result (λ made. plain_of made.value.shape
        ≡ fed (rewritten (plain_of left.now.shape)) (rewritten (plain_of right.now.shape))) }
{
    let mut left = rewritten(left, alloc)?;
    let mut right = rewritten(right, alloc)?;
    group_from_left(&mut left, &mut right);
    boxed(Shape::Compose(left, right), span, alloc)
}

#[cycle(rewrite)]
fn rewritten_collect(
    columns: &KeyColumns,
    sync: &Pred,
    rate: &Rate,
    inner: &Query,
    span: Span,
    alloc: Global,
) -> Result<Box<Query>, AllocError>
    ensures { IfOk result (λ made. plain_of made.value.shape
        ≡ collect columns.now (predicates.plain_of sync.now) (rates.plain_of rate.now)
        (rewritten (plain_of inner.now.shape))) }
{
    let inner = rewritten(inner, alloc)?;
    let columns = columns.try_copy(alloc)?;
    let sync = sync.try_copy(alloc)?;
    boxed(
        Shape::Collect(columns, sync, rate.try_copy(alloc)?, inner),
        span,
        alloc,
    )
}
