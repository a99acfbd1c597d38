//! The search for a left operand of a compose that has a value on no items.
ghost use Rattle.std.specs.Prelude.{[], IfOk};
ghost use Rattle.early_values.specs.EarlyValues.{IsEarlyOf, IsFound, IsFoundInEither};
ghost use Rattle.query_model.specs.Queries.{plain_of};
ghost use Rattle.slow_eval.specs.Answers.{CanBeRead};

use language_base::Span;
use query_model::{Checked, Query, Shape};
use slow_eval::answer_on;
use std::alloc::{AllocError, Global};
use value_ops::Value;

/// The place of a compose's left operand, and the value that it has on no items.
#[derive(Drop)]
pub struct EarlyValue {
    pub span: Span,
    pub value: Value,
}

/// The first such operand, from the outside to the inside and from left to right.
pub fn early_value(alloc: Global, query: &Checked) -> Result<Option<EarlyValue>, AllocError>
    ensures { IfOk result (IsFound query.now.main.shape) }
{
    early_in(alloc, query.main())
}

#[cycle(early)]
fn early_in(alloc: Global, query: &Query) -> Result<Option<EarlyValue>, AllocError>
    requires { CanBeRead (plain_of query.now.shape) [] }
    ensures { IfOk result (IsFound query.now.shape) }
{
    match &query.shape {
        Shape::Atom(..) => Ok(None),
        Shape::Eps(_) => Ok(None),
        Shape::Or(left, right) => early_in_either(alloc, left, right),
        Shape::Split(left, right, _) => early_in_either(alloc, left, right),
        Shape::Iter(inner, ..) => early_in(alloc, inner),
        Shape::Combine(left, right, _) => early_in_either(alloc, left, right),
        Shape::Apply(inner, _) => early_in(alloc, inner),
        Shape::Compose(left, right) => match early_on_nothing(alloc, left)? {
            Some(early) => Ok(Some(early)),
            None => early_in_either(alloc, left, right),
        },
        Shape::Collect(_, _, _, inner) => early_in(alloc, inner),
    }
}

#[cycle(early)]
fn early_in_either(
    alloc: Global,
    left: &Query,
    right: &Query,
) -> Result<Option<EarlyValue>, AllocError>
    requires left { CanBeRead (plain_of left.now.shape) [] }
    requires right { CanBeRead (plain_of right.now.shape) [] }
    ensures { IfOk result (IsFoundInEither left.now.shape right.now.shape) }
{
    match early_in(alloc, left)? {
        Some(early) => Ok(Some(early)),
        None => early_in(alloc, right),
    }
}

// The value of the operand on no items, if it has one.
fn early_on_nothing(alloc: Global, operand: &Query) -> Result<Option<EarlyValue>, AllocError>
    requires { CanBeRead (plain_of operand.now.shape) [] }
    ensures { IfOk result (IsEarlyOf operand.now) }
{
    match answer_on(alloc, operand, &[])? {
        Some(value) => Ok(Some(EarlyValue {
            span: operand.span,
            value,
        })),
        None => Ok(None),
    }
}
