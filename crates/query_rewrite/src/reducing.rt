//! Expressions in which what is known before any item is computed.
ghost use Rattle.std.specs.Prelude.{◌≡◌, IfOk, length};
ghost use Rattle.few_parts.specs.Sizes.{IsRecordSize};
ghost use Rattle.query_rewrite.specs.Reducing.{binary_reduced, choice_reduced, each_reduced};
ghost use Rattle.query_rewrite.specs.Reducing.{reduced, unary_reduced};
ghost use Rattle.expressions.specs.Expressions.{entry, least, most, plain_of, plain_parts, rec};

use crate::literals::{known_binary, known_comparison, known_unary};
use expressions::{Expr, Exprs, Var};
use language_base::Compare;
use std::alloc::{AllocError, Global};
use value_ops::{BinaryOp, Bytes, UnaryOp};

/// The expression, reduced.
#[cycle(reduce)]
pub(crate) fn reduced(value: &Expr, alloc: Global) -> Result<Expr, AllocError>
    ensures { IfOk result (λ made. plain_of made ≡ reduced (plain_of value.now)) }
{
    match value {
        Expr::Literal(number) => Ok(Expr::Literal(*number)),
        Expr::Read(name) => Ok(Expr::Read(*name)),
        Expr::Unary(op, inner) => reduced_unary(*op, inner, alloc),
        Expr::Binary(op, left, right) => reduced_binary(*op, left, right, alloc),
        Expr::If(test, left, right, met, other) => {
            reduced_choice(*test, left, right, met, other, alloc)
        }
        Expr::Sum(name) => Ok(Expr::Sum(*name)),
        Expr::Count(name) => Ok(Expr::Count(*name)),
        Expr::Most(name, first) => reduced_most(*name, first, alloc),
        Expr::Least(name, first) => reduced_least(*name, first, alloc),
        Expr::Get(name, key, other) => reduced_entry(*name, key, other, alloc),
        Expr::Rec(parts) => reduced_record(parts.as_slice(), alloc),
        Expr::Part(name, place) => Ok(Expr::Part(*name, *place)),
    }
}

#[cycle(reduce)]
fn boxed_reduced(value: &Expr, alloc: Global) -> Result<Box<Expr>, AllocError>
    ensures { IfOk result (λ made. plain_of made.value ≡ reduced (plain_of value.now)) }
{
    Ok(Box::new(alloc, reduced(value, alloc)?)?)
}

#[cycle(reduce)]
fn reduced_unary(op: UnaryOp, inner: &Expr, alloc: Global) -> Result<Expr, AllocError>
    ensures { IfOk result (λ made.
        plain_of made ≡ unary_reduced op (reduced (plain_of inner.now))) }
{
    let inner = boxed_reduced(inner, alloc)?;
    match known_unary(op, &inner) {
        Some(number) => Ok(Expr::Literal(number)),
        None => Ok(Expr::Unary(op, inner)),
    }
}

#[cycle(reduce)]
fn reduced_binary(
    op: BinaryOp,
    left: &Expr,
    right: &Expr,
    alloc: Global,
) -> Result<Expr, AllocError>
    ensures { IfOk result (λ made. plain_of made
        ≡ binary_reduced op (reduced (plain_of left.now)) (reduced (plain_of right.now))) }
{
    let left = boxed_reduced(left, alloc)?;
    let right = boxed_reduced(right, alloc)?;
    match known_binary(op, &left, &right) {
        Some(number) => Ok(Expr::Literal(number)),
        None => Ok(Expr::Binary(op, left, right)),
    }
}

#[cycle(reduce)]
fn reduced_choice(
    test: Compare,
    left: &Expr,
    right: &Expr,
    met: &Expr,
    other: &Expr,
    alloc: Global,
) -> Result<Expr, AllocError>
    ensures { IfOk result (λ made. plain_of made ≡ choice_reduced test
        (reduced (plain_of left.now)) (reduced (plain_of right.now))
        (reduced (plain_of met.now)) (reduced (plain_of other.now))) }
{
    let left = boxed_reduced(left, alloc)?;
    let right = boxed_reduced(right, alloc)?;
    match known_comparison(test, &left, &right) {
        Some(true) => reduced(met, alloc),
        Some(false) => reduced(other, alloc),
        None => {
            let met = boxed_reduced(met, alloc)?;
            Ok(Expr::If(test, left, right, met, boxed_reduced(other, alloc)?))
        }
    }
}

#[cycle(reduce)]
fn reduced_most(name: Var, first: &Expr, alloc: Global) -> Result<Expr, AllocError>
    ensures { IfOk result (λ made. plain_of made ≡ most name (reduced (plain_of first.now))) }
{
    Ok(Expr::Most(name, boxed_reduced(first, alloc)?))
}

#[cycle(reduce)]
fn reduced_least(name: Var, first: &Expr, alloc: Global) -> Result<Expr, AllocError>
    ensures { IfOk result (λ made. plain_of made ≡ least name (reduced (plain_of first.now))) }
{
    Ok(Expr::Least(name, boxed_reduced(first, alloc)?))
}

#[cycle(reduce)]
fn reduced_entry(name: Var, key: &Bytes, other: &Expr, alloc: Global) -> Result<Expr, AllocError>
    ensures { IfOk result (λ made.
        plain_of made ≡ entry name key.now (reduced (plain_of other.now))) }
{
    let key = key.try_copy(alloc)?;
    Ok(Expr::Get(name, key, boxed_reduced(other, alloc)?))
}

#[cycle(reduce)]
fn reduced_record(parts: &[Expr], alloc: Global) -> Result<Expr, AllocError>
    requires { IsRecordSize (length parts.now) }
    ensures { IfOk result (λ made. plain_of made ≡ rec (each_reduced (plain_parts parts.now))) }
{
    let mut made = Vec::new(alloc);
    'parts: for part in parts {
        made.push(reduced(part, alloc)?)?;
    }
    Ok(Expr::Rec(Exprs::of(made)))
}
