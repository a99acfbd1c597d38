//! An expression applied to the value of a query, made one with those below it.
ghost use Rattle.std.specs.Prelude.{◌≡◌, OnOk};
ghost use Rattle.query_model.specs.Queries.{apply, plain_of};
ghost use Rattle.query_rewrite.specs.Applies.{IsApply};
ghost use Rattle.query_rewrite.specs.Steps.{applied};
ghost use Rattle.expressions.specs.Expressions as values;

use crate::merging::{can_merge, merge_into};
use expressions::Expr;
use query_model::{Query, Shape};
use std::alloc::{AllocError, Global};
use std::mem::replace;

/// Takes expressions from the query into the one that is applied to it, as long as they are
/// made one.
pub(crate) fn merge_applies(
    inner: &mut Box<Query>,
    value: &mut Expr,
    alloc: Global,
) -> Result<(), AllocError>
    ensures { OnOk result (apply (plain_of inner.new.value.shape) (values.plain_of value.new)
        ≡ applied (plain_of inner.old.value.shape) (values.plain_of value.old)) }
{
    let Shape::Apply(next, first) = &mut inner.shape else {
        return Ok(());
    };
    if !can_merge(first, value) {
        return Ok(());
    }
    merge_into(value, first, alloc)?;
    merge_applies(next, value, alloc)?;
    leave_operand(inner);
    Ok(())
}

/// Leaves the operand of an apply in its place.
fn leave_operand(query: &mut Box<Query>)
    requires { IsApply query.old.value.shape }
    ensures { (value : values.Expression)
        × (plain_of query.old.value.shape ≡ apply (plain_of query.new.value.shape) value) }
{
    if let Shape::Apply(inner, _) = replace(&mut query.shape, Shape::Eps(0)) {
        *query = inner;
    }
}
