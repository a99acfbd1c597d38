// Queries on a number, their streams and their items.
ghost use Rattle.std.specs.Prelude.{◌≡◌, [], ◌∷◌, IfOk};
ghost use Rattle.expressions.specs.Expressions as values;
ghost use Rattle.expressions.specs.Expressions.{binary, read};
ghost use Rattle.predicates.specs.Predicates.{any};
ghost use Rattle.query_model.specs.Queries.{atom, plain_of};
ghost use Rattle.test_engines.specs.TestedQueries as tested;

use expressions::{Expr, Var};
use item_schema::{Column, Item, Kind, Schema};
use predicates::Pred;
use query_model::{Query, Shape, Span};
use std::alloc::{AllocError, Global};
use value_ops::{BinaryOp, Bytes, Field};

fn query(alloc: Global, shape: Shape) -> Result<Box<Query>, AllocError>
    ensures { IfOk result (λ query. query.value.shape ≡ shape) }
{
    let span = Span { from: 0, to: 1 };
    Ok(Box::new(alloc, Query { shape, span })?)
}

// atom(any, EXPRESSION)
fn each(alloc: Global, expression: Expr) -> Result<Box<Query>, AllocError>
    ensures { IfOk result (λ query. plain_of query.value.shape
        ≡ atom any (values.plain_of expression)) }
{
    query(alloc, Shape::Atom(Pred::Any, expression))
}

// The values of both operands.
fn both(alloc: Global, operator: BinaryOp) -> Result<Expr, AllocError>
    ensures { IfOk result (λ both. values.plain_of both
        ≡ binary operator (read Var.Left) (read Var.Right)) }
{
    let left = Box::new(alloc, Expr::Read(Var::Left))?;
    let right = Box::new(alloc, Expr::Read(Var::Right))?;
    Ok(Expr::Binary(operator, left, right))
}

// iter(atom(any, EXPRESSION), 0, add(x, y))
fn total(alloc: Global, expression: Expr) -> Result<Box<Query>, AllocError>
    ensures { IfOk result (λ query. plain_of query.value.shape
        ≡ tested.total (values.plain_of expression)) }
{
    let inner = each(alloc, expression)?;
    let sum = both(alloc, BinaryOp::Add)?;
    query(alloc, Shape::Iter(inner, 0, sum))
}

// combine(iter(atom(any, a), 0, add(x, y)), iter(atom(any, 1), 0, add(x, y)), sub(x, y))
pub fn excess(alloc: Global) -> Result<Box<Query>, AllocError>
    ensures { IfOk result (λ query. plain_of query.value.shape ≡ tested.excess) }
{
    let left = total(alloc, Expr::Read(Var::Field(0)))?;
    let right = total(alloc, Expr::Literal(1))?;
    let value = both(alloc, BinaryOp::Sub)?;
    query(alloc, Shape::Combine(left, right, value))
}

// The column of a number.
pub fn numbers(alloc: Global) -> Result<Schema, AllocError>
    ensures { IfOk result (λ schema. schema.columns ≡ tested.numbers) }
{
    let mut columns = Vec::new(alloc);
    let name = Bytes::from_slice(alloc, b"a")?;
    columns.push(Column {
        name,
        kind: Kind::Int,
    })?;
    Ok(Schema::new(false, columns))
}

pub fn item(alloc: Global, number: i64) -> Result<Box<Item<'static>>, AllocError>
    ensures { IfOk result (λ item. item.value ≡ Field.Int number ∷ []) }
{
    Ok(Box::new(alloc, Item::from_field(Field::Int(number)))?)
}
