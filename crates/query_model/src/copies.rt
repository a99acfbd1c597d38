//! Shapes that are copied with their operands, in which each place stays.
ghost use Rattle.std.specs.Prelude.{◌≡◌, [], ◌∷◌, ◌++◌, IfOk};
ghost use Rattle.predicates.specs.Plain as predicates;
ghost use Rattle.query_model.specs.Queries.{plain_of, spans_of, apply, atom, choice, collect};
ghost use Rattle.query_model.specs.Queries.{combine, compose, iter, split};
ghost use Rattle.rate_expr.specs.Plain as rates;
ghost use Rattle.expressions.specs.Expressions as values;

use crate::KeyColumns;
use crate::query::{Query, Shape};
use expressions::Expr;
use predicates::Pred;
use rate_expr::Rate;
use std::alloc::{AllocError, Global};

pub(crate) fn copy_of_atom(pred: &Pred, value: &Expr, alloc: Global) -> Result<Shape, AllocError>
    ensures query { IfOk result (λ copy. plain_of copy
        ≡ atom (predicates.plain_of pred.now) (values.plain_of value.now)) }
    ensures spans { IfOk result (λ copy. spans_of copy ≡ []) }
{
    let pred = pred.try_copy(alloc)?;
    Ok(Shape::Atom(pred, value.try_copy(alloc)?))
}

#[cycle(copy)]
pub(crate) fn copy_of_choice(
    left: &Query,
    right: &Query,
    alloc: Global,
) -> Result<Shape, AllocError>
    ensures query { IfOk result (λ copy. plain_of copy
        ≡ choice (plain_of left.now.shape) (plain_of right.now.shape)) }
    ensures spans { IfOk result (λ copy. spans_of copy ≡ spans_of left.now.shape
        ++ left.now.span ∷ spans_of right.now.shape ++ right.now.span ∷ []) }
{
    let left = left.boxed_copy(alloc)?;
    Ok(Shape::Or(left, right.boxed_copy(alloc)?))
}

#[cycle(copy)]
pub(crate) fn copy_of_split(
    left: &Query,
    right: &Query,
    value: &Expr,
    alloc: Global,
) -> Result<Shape, AllocError>
    ensures query { IfOk result (λ copy. plain_of copy ≡ split (plain_of left.now.shape)
        (plain_of right.now.shape) (values.plain_of value.now)) }
    ensures spans { IfOk result (λ copy. spans_of copy ≡ spans_of left.now.shape
        ++ left.now.span ∷ spans_of right.now.shape ++ right.now.span ∷ []) }
{
    let left = left.boxed_copy(alloc)?;
    let right = right.boxed_copy(alloc)?;
    Ok(Shape::Split(left, right, value.try_copy(alloc)?))
}

#[cycle(copy)]
pub(crate) fn copy_of_iter(
    inner: &Query,
    number: i64,
    value: &Expr,
    alloc: Global,
) -> Result<Shape, AllocError>
    ensures query { IfOk result (λ copy. plain_of copy
        ≡ iter (plain_of inner.now.shape) number (values.plain_of value.now)) }
    ensures spans { IfOk result (λ copy.
        spans_of copy ≡ spans_of inner.now.shape ++ inner.now.span ∷ []) }
{
    let inner = inner.boxed_copy(alloc)?;
    Ok(Shape::Iter(inner, number, value.try_copy(alloc)?))
}

#[cycle(copy)]
pub(crate) fn copy_of_combine(
    left: &Query,
    right: &Query,
    value: &Expr,
    alloc: Global,
) -> Result<Shape, AllocError>
    ensures query { IfOk result (λ copy. plain_of copy ≡ combine (plain_of left.now.shape)
        (plain_of right.now.shape) (values.plain_of value.now)) }
    ensures spans { IfOk result (λ copy. spans_of copy ≡ spans_of left.now.shape
        ++ left.now.span ∷ spans_of right.now.shape ++ right.now.span ∷ []) }
{
    let left = left.boxed_copy(alloc)?;
    let right = right.boxed_copy(alloc)?;
    Ok(Shape::Combine(left, right, value.try_copy(alloc)?))
}

#[cycle(copy)]
pub(crate) fn copy_of_apply(inner: &Query, value: &Expr, alloc: Global) -> Result<Shape, AllocError>
    ensures query { IfOk result (λ copy. plain_of copy
        ≡ apply (plain_of inner.now.shape) (values.plain_of value.now)) }
    ensures spans { IfOk result (λ copy.
        spans_of copy ≡ spans_of inner.now.shape ++ inner.now.span ∷ []) }
{
    let inner = inner.boxed_copy(alloc)?;
    Ok(Shape::Apply(inner, value.try_copy(alloc)?))
}

#[cycle(copy)]
pub(crate) fn copy_of_compose(
    left: &Query,
    right: &Query,
    alloc: Global,
) -> Result<Shape, AllocError>
    ensures query { IfOk result (λ copy. plain_of copy
        ≡ compose (plain_of left.now.shape) (plain_of right.now.shape)) }
    ensures spans { IfOk result (λ copy. spans_of copy ≡ spans_of left.now.shape
        ++ left.now.span ∷ spans_of right.now.shape ++ right.now.span ∷ []) }
{
    let left = left.boxed_copy(alloc)?;
    Ok(Shape::Compose(left, right.boxed_copy(alloc)?))
}

#[cycle(copy)]
pub(crate) fn copy_of_collect(
    columns: &KeyColumns,
    sync: &Pred,
    rate: &Rate,
    inner: &Query,
    alloc: Global,
) -> Result<Shape, AllocError>
    ensures query { IfOk result (λ copy. plain_of copy ≡ collect columns.now
        (predicates.plain_of sync.now) (rates.plain_of rate.now) (plain_of inner.now.shape)) }
    ensures spans { IfOk result (λ copy.
        spans_of copy ≡ spans_of inner.now.shape ++ inner.now.span ∷ []) }
{
    let inner = inner.boxed_copy(alloc)?;
    let columns = columns.try_copy(alloc)?;
    let sync = sync.try_copy(alloc)?;
    Ok(Shape::Collect(columns, sync, rate.try_copy(alloc)?, inner))
}
