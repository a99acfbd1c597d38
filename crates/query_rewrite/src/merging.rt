//! Two expressions, one applied to what the other gives, made one.
ghost use Rattle.std.specs.Prelude.{◌≡◌, IfOk, OnOk};
ghost use Rattle.query_rewrite.specs.Filling.{filled};
ghost use Rattle.query_rewrite.specs.Reducing.{reduced};
ghost use Rattle.query_rewrite.specs.Steps.{is_left_value, merge, merged};
ghost use Rattle.expressions.specs.Expressions.{plain_of};

use crate::filling::filled;
use crate::levels::levels_of;
use crate::reading::reading_of;
use crate::reducing::reduced;
use expressions::{Expr, Var};
use std::alloc::{AllocError, Global};
use std::mem::swap;

/// The most levels that fit under a node of a let.
pub(crate) const MAX_LEVELS: u32 = 62;

/// Whether the expressions are made one.
pub(crate) fn can_merge(inner: &Expr, outer: &Expr) -> bool
    ensures { result ≡ merge (plain_of inner.now) (plain_of outer.now) }
{
    (is_left_value(inner) || reading_of(outer).is_once_at_most())
        && levels_of(outer, levels_of(inner, 1)) <= MAX_LEVELS
}

/// Puts the expression made of both in the place of the outer one.
pub(crate) fn merge_into(
    outer: &mut Expr,
    inner: &mut Expr,
    alloc: Global,
) -> Result<(), AllocError>
    ensures { OnOk result (plain_of outer.new ≡ merged (plain_of inner.old) (plain_of outer.old)) }
{
    if is_left_value(outer) {
        swap(outer, inner);
    } else if !is_left_value(inner) {
        *outer = merged(inner, outer, alloc)?;
    }
    Ok(())
}

fn merged(inner: &Expr, outer: &Expr, alloc: Global) -> Result<Expr, AllocError>
    ensures { IfOk result (λ made.
        plain_of made ≡ reduced (filled (plain_of inner.now) (plain_of outer.now))) }
{
    let whole = filled(inner, outer, alloc)?;
    reduced(&whole, alloc)
}

fn is_left_value(value: &Expr) -> bool
    ensures { result ≡ is_left_value (plain_of value.now) }
{
    matches!(value, Expr::Read(Var::Left))
}
