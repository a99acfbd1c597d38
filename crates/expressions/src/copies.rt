//! Copies of expressions.
ghost use Rattle.std.specs.Prelude.{◌≡◌, IfOk, length};
ghost use Rattle.expressions.specs.Expressions.{binary, choice, entry, least, most, plain_of};
ghost use Rattle.expressions.specs.Expressions.{plain_parts, rec, unary};
ghost use Rattle.few_parts.specs.Sizes.{IsRecordSize};

use crate::{Expr, Exprs, Var};
use language_base::{BinaryOp, Bytes, Compare, UnaryOp};
use std::alloc::{AllocError, Global};

impl Expr {
    /// An equal expression.
    #[cycle(copy)]
    pub fn try_copy(&self, alloc: Global) -> Result<Expr, AllocError>
        ensures { IfOk result (λ copy. plain_of copy ≡ plain_of self.now) }
    {
        match self {
            Expr::Literal(number) => Ok(Expr::Literal(*number)),
            Expr::Read(name) => Ok(Expr::Read(*name)),
            Expr::Unary(op, inner) => copy_of_unary(alloc, *op, inner),
            Expr::Binary(op, left, right) => copy_of_binary(alloc, *op, left, right),
            Expr::If(test, left, right, met, other) => {
                copy_of_choice(alloc, *test, left, right, met, other)
            }
            Expr::Sum(name) => Ok(Expr::Sum(*name)),
            Expr::Count(name) => Ok(Expr::Count(*name)),
            Expr::Most(name, left) => copy_of_most(alloc, *name, left),
            Expr::Least(name, left) => copy_of_least(alloc, *name, left),
            Expr::Get(name, key, other) => copy_of_entry(alloc, *name, key, other),
            Expr::Rec(parts) => copy_of_record(alloc, parts.as_slice()),
            Expr::Part(name, place) => Ok(Expr::Part(*name, *place)),
        }
    }

    #[cycle(copy)]
    fn boxed_copy(&self, alloc: Global) -> Result<Box<Expr>, AllocError>
        ensures { IfOk result (λ copy. plain_of copy.value ≡ plain_of self.now) }
    {
        Ok(Box::new(alloc, self.try_copy(alloc)?)?)
    }
}

#[cycle(copy)]
fn copy_of_unary(alloc: Global, op: UnaryOp, inner: &Expr) -> Result<Expr, AllocError>
    ensures { IfOk result (λ copy. plain_of copy ≡ unary op (plain_of inner.now)) }
{
    Ok(Expr::Unary(op, inner.boxed_copy(alloc)?))
}

#[cycle(copy)]
fn copy_of_binary(
    alloc: Global,
    op: BinaryOp,
    left: &Expr,
    right: &Expr,
) -> Result<Expr, AllocError>
    ensures { IfOk result (λ copy.
        plain_of copy ≡ binary op (plain_of left.now) (plain_of right.now)) }
{
    let left = left.boxed_copy(alloc)?;
    Ok(Expr::Binary(op, left, right.boxed_copy(alloc)?))
}

#[cycle(copy)]
fn copy_of_choice(
    alloc: Global,
    test: Compare,
    left: &Expr,
    right: &Expr,
    met: &Expr,
    other: &Expr,
) -> Result<Expr, AllocError>
    ensures { IfOk result (λ copy. plain_of copy ≡ choice test
        (plain_of left.now) (plain_of right.now) (plain_of met.now) (plain_of other.now)) }
{
    let left = left.boxed_copy(alloc)?;
    let right = right.boxed_copy(alloc)?;
    let met = met.boxed_copy(alloc)?;
    Ok(Expr::If(test, left, right, met, other.boxed_copy(alloc)?))
}

#[cycle(copy)]
fn copy_of_most(alloc: Global, name: Var, first: &Expr) -> Result<Expr, AllocError>
    ensures { IfOk result (λ copy. plain_of copy ≡ most name (plain_of first.now)) }
{
    Ok(Expr::Most(name, first.boxed_copy(alloc)?))
}

#[cycle(copy)]
fn copy_of_least(alloc: Global, name: Var, first: &Expr) -> Result<Expr, AllocError>
    ensures { IfOk result (λ copy. plain_of copy ≡ least name (plain_of first.now)) }
{
    Ok(Expr::Least(name, first.boxed_copy(alloc)?))
}

#[cycle(copy)]
fn copy_of_entry(alloc: Global, name: Var, key: &Bytes, other: &Expr) -> Result<Expr, AllocError>
    ensures { IfOk result (λ copy. plain_of copy ≡ entry name key.now (plain_of other.now)) }
{
    let key = key.try_copy(alloc)?;
    Ok(Expr::Get(name, key, other.boxed_copy(alloc)?))
}

#[cycle(copy)]
fn copy_of_record(alloc: Global, parts: &[Expr]) -> Result<Expr, AllocError>
    requires { IsRecordSize (length parts.now) }
    ensures { IfOk result (λ copy. plain_of copy ≡ rec (plain_parts parts.now)) }
{
    let mut copies = Vec::new(alloc);
    'parts: for part in parts {
        copies.push(part.try_copy(alloc)?)?;
    }
    Ok(Expr::Rec(Exprs::of(copies)))
}
