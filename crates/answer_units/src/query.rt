//! The scales of what a query gives.
ghost use Rattle.std.specs.Prelude.{◌≡◌, [], ◌∷◌, IfOk};
ghost use Rattle.expressions.specs.Expressions as values;
ghost use Rattle.query_model.specs.Queries.{plain_of};
ghost use Rattle.answer_units.specs.ExpressionScales.{names_of, scales_of};
ghost use Rattle.answer_units.specs.QueryScales.{each_alike, fold_scale, query_scales, step_scale};

use crate::names::Names;
use crate::scale::Scale;
use expressions::Expr;
use query_model::{Query, Shape};
use std::alloc::{AllocError, Global};

/// The scales of the values of the query, from those of the columns.
#[cycle(scales)]
pub fn query_scales(
    query: &Query,
    columns: &[Scale],
    alloc: Global,
) -> Result<Vec<Scale>, AllocError>
    ensures { IfOk result (λ scales.
        scales.items ≡ query_scales columns.now (plain_of query.now.shape)) }
{
    match &query.shape {
        Shape::Atom(_, value) => of_item(alloc, columns, value),
        Shape::Eps(_) => Vec::from_slice(alloc, &[Scale::Any]),
        Shape::Or(left, right) => {
            let left = query_scales(left, columns, alloc)?;
            of_choice(&left, right, columns, alloc)
        }
        Shape::Split(left, right, value) | Shape::Combine(left, right, value) => {
            let left = query_scales(left, columns, alloc)?;
            of_both(&left, right, value, columns, alloc)
        }
        Shape::Iter(inner, _, value) => of_iter(inner, value, columns, alloc),
        Shape::Apply(inner, value) => of_apply(inner, value, columns, alloc),
        Shape::Compose(left, right) => {
            let values = query_scales(left, columns, alloc)?;
            query_scales(right, &values, alloc)
        }
        Shape::Collect(_, _, _, inner) => query_scales(inner, columns, alloc),
    }
}

// Those of a value of the one or of the other query.
#[cycle(scales)]
fn of_choice(
    left: &[Scale],
    right: &Query,
    columns: &[Scale],
    alloc: Global,
) -> Result<Vec<Scale>, AllocError>
    ensures { IfOk result (λ scales. scales.items
        ≡ each_alike left.now (query_scales columns.now (plain_of right.now.shape))) }
{
    let right = query_scales(right, columns, alloc)?;
    each_alike(alloc, left, &right)
}

// Those of what the expression gives on the values of both queries.
#[cycle(scales)]
fn of_both(
    left: &[Scale],
    right: &Query,
    value: &Expr,
    columns: &[Scale],
    alloc: Global,
) -> Result<Vec<Scale>, AllocError>
    ensures { IfOk result (λ scales. scales.items ≡ scales_of
        (names_of [] left.now (query_scales columns.now (plain_of right.now.shape)))
        (values.plain_of value.now)) }
{
    let right = query_scales(right, columns, alloc)?;
    of_values(alloc, left, &right, value)
}

#[cycle(scales)]
fn of_iter(
    inner: &Query,
    value: &Expr,
    columns: &[Scale],
    alloc: Global,
) -> Result<Vec<Scale>, AllocError>
    ensures { IfOk result (λ scales. scales.items ≡ fold_scale (values.plain_of value.now)
        (query_scales columns.now (plain_of inner.now.shape)) ∷ []) }
{
    let piece = query_scales(inner, columns, alloc)?;
    Vec::from_slice(alloc, &[fold_scale(value, &piece)])
}

#[cycle(scales)]
fn of_apply(
    inner: &Query,
    value: &Expr,
    columns: &[Scale],
    alloc: Global,
) -> Result<Vec<Scale>, AllocError>
    ensures { IfOk result (λ scales. scales.items ≡ scales_of
        (names_of [] (query_scales columns.now (plain_of inner.now.shape)) [])
        (values.plain_of value.now)) }
{
    let inner = query_scales(inner, columns, alloc)?;
    of_values(alloc, &inner, &[], value)
}

// Those of what the expression gives on an item.
fn of_item(alloc: Global, columns: &[Scale], value: &Expr) -> Result<Vec<Scale>, AllocError>
    ensures { IfOk result (λ scales. scales.items
        ≡ scales_of (names_of columns.now [] []) (values.plain_of value.now)) }
{
    let names = Names {
        columns,
        left: &[],
        right: &[],
    };
    names.scales(alloc, value)
}

// Those of what the expression gives on a left and a right value.
fn of_values(
    alloc: Global,
    left: &[Scale],
    right: &[Scale],
    value: &Expr,
) -> Result<Vec<Scale>, AllocError>
    ensures { IfOk result (λ scales. scales.items
        ≡ scales_of (names_of [] left.now right.now) (values.plain_of value.now)) }
{
    let names = Names {
        columns: &[],
        left,
        right,
    };
    names.scales(alloc, value)
}

fn each_alike(alloc: Global, left: &[Scale], right: &[Scale]) -> Result<Vec<Scale>, AllocError>
    ensures { IfOk result (λ scales. scales.items ≡ each_alike left.now right.now) }
{
    left.iter()
        .zip(right)
        .map(|(first, second)| first.alike(*second))
        .collect(alloc)
}

fn fold_scale(value: &Expr, piece: &[Scale]) -> Scale
    ensures { result ≡ fold_scale (values.plain_of value.now) piece.now }
{
    let once = step_scale(value, piece, Scale::Any);
    once.alike(step_scale(value, piece, once))
}

// That of what the expression gives for the value so far of a fold, and for the value of a piece.
fn step_scale(value: &Expr, piece: &[Scale], so_far: Scale) -> Scale
    ensures { result ≡ step_scale (values.plain_of value.now) piece.now so_far }
{
    let names = Names {
        columns: &[],
        left: &[so_far],
        right: piece,
    };
    names.scale(value)
}
