//! Expressions with another for their left value.
ghost use Rattle.std.specs.Prelude.{◌≡◌, IfOk, length};
ghost use Rattle.few_parts.specs.Sizes.{IsRecordSize};
ghost use Rattle.query_rewrite.specs.Filling.{each_filled, filled};
ghost use Rattle.expressions.specs.Expressions.{binary, choice, entry, least, most, plain_of};
ghost use Rattle.expressions.specs.Expressions.{plain_parts, rec, unary};

use expressions::{Expr, Exprs, Var};
use language_base::Compare;
use std::alloc::{AllocError, Global};
use value_ops::{BinaryOp, Bytes, UnaryOp};

/// The outer expression with the inner one wherever it reads the left value.
#[cycle(fill)]
pub(crate) fn filled(inner: &Expr, outer: &Expr, alloc: Global) -> Result<Expr, AllocError>
    ensures { IfOk result (λ made.
        plain_of made ≡ filled (plain_of inner.now) (plain_of outer.now)) }
{
    match outer {
        Expr::Literal(number) => Ok(Expr::Literal(*number)),
        Expr::Read(Var::Left) => inner.try_copy(alloc),
        Expr::Read(name) => Ok(Expr::Read(*name)),
        Expr::Unary(op, first) => filled_unary(inner, *op, first, alloc),
        Expr::Binary(op, first, second) => filled_binary(inner, *op, first, second, alloc),
        Expr::If(test, first, second, met, other) => {
            filled_choice(inner, *test, first, second, met, other, alloc)
        }
        Expr::Sum(name) => Ok(Expr::Sum(*name)),
        Expr::Count(name) => Ok(Expr::Count(*name)),
        Expr::Most(name, first) => filled_most(inner, *name, first, alloc),
        Expr::Least(name, first) => filled_least(inner, *name, first, alloc),
        Expr::Get(name, key, other) => filled_entry(inner, *name, key, other, alloc),
        Expr::Rec(parts) => filled_record(parts.as_slice(), inner, alloc),
        Expr::Part(name, place) => Ok(Expr::Part(*name, *place)),
    }
}

#[cycle(fill)]
fn boxed_filled(inner: &Expr, outer: &Expr, alloc: Global) -> Result<Box<Expr>, AllocError>
    ensures { IfOk result (λ made.
        plain_of made.value ≡ filled (plain_of inner.now) (plain_of outer.now)) }
{
    Ok(Box::new(alloc, filled(inner, outer, alloc)?)?)
}

#[cycle(fill)]
fn filled_unary(inner: &Expr, op: UnaryOp, first: &Expr, alloc: Global) -> Result<Expr, AllocError>
    ensures { IfOk result (λ made.
        plain_of made ≡ unary op (filled (plain_of inner.now) (plain_of first.now))) }
{
    Ok(Expr::Unary(op, boxed_filled(inner, first, alloc)?))
}

#[cycle(fill)]
fn filled_binary(
    inner: &Expr,
    op: BinaryOp,
    first: &Expr,
    second: &Expr,
    alloc: Global,
) -> Result<Expr, AllocError>
    ensures { IfOk result (λ made.
        plain_of made ≡ binary op (filled (plain_of inner.now) (plain_of first.now))
        (filled (plain_of inner.now) (plain_of second.now))) }
{
    let first = boxed_filled(inner, first, alloc)?;
    Ok(Expr::Binary(op, first, boxed_filled(inner, second, alloc)?))
}

#[cycle(fill)]
fn filled_choice(
    inner: &Expr,
    test: Compare,
    first: &Expr,
    second: &Expr,
    met: &Expr,
    other: &Expr,
    alloc: Global,
) -> Result<Expr, AllocError>
    ensures { IfOk result (λ made. plain_of made ≡ choice test
        (filled (plain_of inner.now) (plain_of first.now))
        (filled (plain_of inner.now) (plain_of second.now))
        (filled (plain_of inner.now) (plain_of met.now))
        (filled (plain_of inner.now) (plain_of other.now))) }
{
    let first = boxed_filled(inner, first, alloc)?;
    let second = boxed_filled(inner, second, alloc)?;
    let met = boxed_filled(inner, met, alloc)?;
    let other = boxed_filled(inner, other, alloc)?;
    Ok(Expr::If(test, first, second, met, other))
}

#[cycle(fill)]
fn filled_most(inner: &Expr, name: Var, first: &Expr, alloc: Global) -> Result<Expr, AllocError>
    ensures { IfOk result (λ made.
        plain_of made ≡ most name (filled (plain_of inner.now) (plain_of first.now))) }
{
    Ok(Expr::Most(name, boxed_filled(inner, first, alloc)?))
}

#[cycle(fill)]
fn filled_least(inner: &Expr, name: Var, first: &Expr, alloc: Global) -> Result<Expr, AllocError>
    ensures { IfOk result (λ made.
        plain_of made ≡ least name (filled (plain_of inner.now) (plain_of first.now))) }
{
    Ok(Expr::Least(name, boxed_filled(inner, first, alloc)?))
}

#[cycle(fill)]
fn filled_entry(
    inner: &Expr,
    name: Var,
    key: &Bytes,
    other: &Expr,
    alloc: Global,
) -> Result<Expr, AllocError>
    ensures { IfOk result (λ made.
        plain_of made ≡ entry name key.now (filled (plain_of inner.now) (plain_of other.now))) }
{
    let key = key.try_copy(alloc)?;
    Ok(Expr::Get(name, key, boxed_filled(inner, other, alloc)?))
}

#[cycle(fill)]
fn filled_record(parts: &[Expr], inner: &Expr, alloc: Global) -> Result<Expr, AllocError>
    requires { IsRecordSize (length parts.now) }
    ensures { IfOk result (λ made.
        plain_of made ≡ rec (each_filled (plain_of inner.now) (plain_parts parts.now))) }
{
    let mut made = Vec::new(alloc);
    'parts: for part in parts {
        made.push(filled(inner, part, alloc)?)?;
    }
    Ok(Expr::Rec(Exprs::of(made)))
}
