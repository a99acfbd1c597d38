//! Nodes of queries, made of operands that are resolved.
ghost use Rattle.std.specs.Prelude.{◌≡◌, IfErr, IfOk, List};
ghost use Rattle.item_schema.specs.declared.column.Column.{Column};
ghost use Rattle.query_syntax.specs.Plain.{plain_expression, plain_query};
ghost use Rattle.query_syntax.specs.Queries as q;
ghost use Rattle.query_resolver.specs.Forms.{IsPair};
ghost use Rattle.query_resolver.specs.Joints.{joint_node, pair_node};
ghost use Rattle.query_resolver.specs.Resolutions.{IsMade, IsMadeOfOne, IsMadeOfTwo};
ghost use Rattle.query_resolver.specs.Resolutions.{IsRefused, IsRefusedOverOne, IsRefusedOverTwo};
ghost use Rattle.query_resolver.specs.Resolved.{Nesting, same_type};
ghost use Rattle.query_model.specs.QueryTypes.{of_one, of_two};
ghost use Rattle.expressions.specs.Shown.{shown_types};

use crate::CheckStop;
use crate::expression::Scope;
use crate::query_types::Typed;
use crate::typed_expressions::{number_over, value_over};
use expressions::Types;
use item_schema::Schema;
use language_base::{Rule, Span};
use query_model::Shape;
use query_syntax::{Expression, Number, Query};
use std::alloc::Global;
use value_ops::ValueType;

/// The columns of a stream, and the types of the fields in them.
#[derive(Clone, Copy)]
pub struct Items<'s> {
    pub schema: &'s Schema,
    pub types: &'s [Option<ValueType>],
}

/// Which of the three nodes that have two operands on one stream.
#[derive(Clone, Copy)]
pub enum Joint<'t> {
    Choice,
    Split(&'t Expression),
    Combine(&'t Expression),
}

/// A node of two operands on one stream, as it is written.
#[derive(Clone, Copy)]
pub struct Pair<'t> {
    pub joint: Joint<'t>,
    pub left: &'t Query,
    pub right: &'t Query,
    pub span: Span,
}

/// The node by its parts.
pub fn pair_of(query: &Query) -> Pair<'_>
    requires { IsPair (plain_query query.now) }
    ensures { plain_query query.now ≡ pair_node result }
{
    match query {
        Query::Or { left, right, span } => Pair {
            joint: Joint::Choice,
            left,
            right,
            span: *span,
        },
        Query::Split {
            left,
            right,
            value,
            span,
        } => Pair {
            joint: Joint::Split(value),
            left,
            right,
            span: *span,
        },
        Query::Combine {
            left,
            right,
            value,
            span,
        } => Pair {
            joint: Joint::Combine(value),
            left,
            right,
            span: *span,
        },
        _ => unreachable!(),
    }
}

/// The query that joins two resolved operands.
pub fn joined(
    alloc: Global,
    joint: Joint<'_>,
    left: Typed,
    right: Typed,
    span: Span,
) -> Result<Typed, CheckStop>
    ensures made { IfOk result (IsMadeOfTwo (joint_node joint.entry span) left right) }
    ensures refused { IfErr result (IsRefusedOverTwo (joint_node joint.entry span) left right) }
{
    match joint {
        Joint::Choice => choice(alloc, left, right, span),
        Joint::Split(value) => split(alloc, left, right, value, span),
        Joint::Combine(value) => combine(alloc, left, right, value, span),
    }
}

pub fn eps(alloc: Global, number: &Number, span: Span) -> Result<Typed, CheckStop>
    ensures made { IfOk result (λ made. (nesting : Nesting) (columns : List Column)
        → IsMade nesting columns (q.eps number.now span) made) }
    ensures refused { IfErr result (λ stop. (nesting : Nesting) (columns : List Column)
        → IsRefused nesting columns (q.eps number.now span) stop) }
{
    let shape = Shape::Eps(number.value);
    Ok(Typed::new(alloc, shape, span, ValueType::Number)?)
}

fn choice(alloc: Global, left: Typed, right: Typed, span: Span) -> Result<Typed, CheckStop>
    ensures made { IfOk result (IsMadeOfTwo (λ f g. q.or f g span) left right) }
    ensures refused { IfErr result (IsRefusedOverTwo (λ f g. q.or f g span) left right) }
{
    if !same_type(right.ty, left.ty) {
        return Err(CheckStop::refused(Rule::Mismatch, span));
    }
    let shape = Shape::Or(left.query, right.query);
    Ok(Typed::new(alloc, shape, span, left.ty)?)
}

fn split(
    alloc: Global,
    left: Typed,
    right: Typed,
    value: &Expression,
    span: Span,
) -> Result<Typed, CheckStop>
    ensures made { IfOk result (IsMadeOfTwo
        (λ f g. q.split f g (plain_expression value.now) span) left right) }
    ensures refused { IfErr result (IsRefusedOverTwo
        (λ f g. q.split f g (plain_expression value.now) span) left right) }
{
    let types = of_two(left.ty, right.ty);
    let (value, ty) = value_over(alloc, Scope::Two, &types, value, span)?;
    let shape = Shape::Split(left.query, right.query, value);
    Ok(Typed::new(alloc, shape, span, ty)?)
}

fn combine(
    alloc: Global,
    left: Typed,
    right: Typed,
    value: &Expression,
    span: Span,
) -> Result<Typed, CheckStop>
    ensures made { IfOk result (IsMadeOfTwo
        (λ f g. q.combine f g (plain_expression value.now) span) left right) }
    ensures refused { IfErr result (IsRefusedOverTwo
        (λ f g. q.combine f g (plain_expression value.now) span) left right) }
{
    let types = of_two(left.ty, right.ty);
    let (value, ty) = value_over(alloc, Scope::Two, &types, value, span)?;
    let shape = Shape::Combine(left.query, right.query, value);
    Ok(Typed::new(alloc, shape, span, ty)?)
}

pub fn iter(
    alloc: Global,
    operand: Typed,
    first: &Number,
    step: &Expression,
    span: Span,
) -> Result<Typed, CheckStop>
    ensures made { IfOk result (IsMadeOfOne
        (λ f. q.iter f first.now (plain_expression step.now) span) operand) }
    ensures refused { IfErr result (IsRefusedOverOne
        (λ f. q.iter f first.now (plain_expression step.now) span) operand) }
{
    let types = of_two(ValueType::Number, operand.ty);
    let step = number_over(alloc, Scope::Two, &types, step, span)?;
    let shape = Shape::Iter(operand.query, first.value, step);
    Ok(Typed::new(alloc, shape, span, ValueType::Number)?)
}

pub fn apply(
    alloc: Global,
    operand: Typed,
    value: &Expression,
    span: Span,
) -> Result<Typed, CheckStop>
    ensures made { IfOk result (IsMadeOfOne
        (λ f. q.apply f (plain_expression value.now) span) operand) }
    ensures refused { IfErr result (IsRefusedOverOne
        (λ f. q.apply f (plain_expression value.now) span) operand) }
{
    let types = of_one(operand.ty);
    let (value, ty) = value_over(alloc, Scope::One, &types, value, span)?;
    let shape = Shape::Apply(operand.query, value);
    Ok(Typed::new(alloc, shape, span, ty)?)
}

/// The types of names where `x` alone is known.
pub fn of_one(value: ValueType) -> Types<'static>
    ensures { shown_types result ≡ of_one value }
{
    Types {
        fields: &[],
        left: Some(value),
        right: None,
    }
}

/// The types of names where `x` and `y` are known.
pub fn of_two(left: ValueType, right: ValueType) -> Types<'static>
    ensures { shown_types result ≡ of_two left right }
{
    Types {
        fields: &[],
        left: Some(left),
        right: Some(right),
    }
}

pub fn same_type(one: ValueType, other: ValueType) -> bool
    ensures { result ≡ same_type one other }
{
    one == other
}
