//! Queries: quantitative regular expressions over the items of a stream.
ghost use Rattle.std.specs.Prelude.{◌≡◌, IfOk};

use crate::copies::{
    copy_of_apply, copy_of_atom, copy_of_choice, copy_of_collect, copy_of_combine, copy_of_compose,
    copy_of_iter, copy_of_split,
};
use crate::query_rates::{rate_of_choice, rate_of_iter, rate_of_split};
use crate::{KeyColumns, Span};
use expressions::Expr;
use predicates::Pred;
use rate_expr::Rate;
use std::alloc::{AllocError, Global};

/// A query, with its place in a text.
#[derive(Drop)]
#[cycle(query)]
pub struct Query {
    pub shape: Shape,
    pub span: Span,
}

/// How a query is made of others.
#[derive(Drop)]
#[cycle(query)]
pub enum Shape {
    /// One item that meets the predicate; its value is the expression on the item's fields.
    Atom(Pred, Expr),
    /// The empty word; its value is the number.
    Eps(i64),
    /// Either.
    Or(Box<Query>, Box<Query>),
    /// A word of the first and then one of the second; its value is the expression on both.
    Split(Box<Query>, Box<Query>, Expr),
    /// Words one after the other; the expression is folded over their values, from the number on.
    Iter(Box<Query>, i64, Expr),
    /// A word of both; its value is the expression on both.
    Combine(Box<Query>, Box<Query>, Expr),
    /// The expression on the value.
    Apply(Box<Query>, Expr),
    /// The second on the stream of the values of the first.
    Compose(Box<Query>, Box<Query>),
    /// A table with the value for each key in the columns, where the items that meet the predicate
    /// belong to every key, on the words of the rate.
    Collect(KeyColumns, Pred, Rate, Box<Query>),
}

impl Query {
    ghost use Rattle.query_model.specs.Queries.{plain_of, spans_of};
    ghost use Rattle.query_model.specs.Rates.{rate_of};
    ghost use Rattle.rate_expr.specs.Plain as rates;

    /// The rate: the words on which the query can have a value.
    #[cycle(rate)]
    pub fn rate(&self, alloc: Global) -> Result<Rate, AllocError>
        ensures { IfOk result (λ rate.
            rates.plain_of rate ≡ rate_of (plain_of self.now.shape)) }
    {
        match &self.shape {
            Shape::Atom(pred, _) => Rate::of_item(pred, alloc),
            Shape::Eps(_) => Ok(Rate::Empty),
            Shape::Or(left, right) => rate_of_choice(left, right, alloc),
            Shape::Split(left, right, _) => rate_of_split(left, right, alloc),
            Shape::Iter(inner, _, _) => rate_of_iter(inner, alloc),
            Shape::Combine(left, _, _) => left.rate(alloc),
            Shape::Apply(inner, _) => inner.rate(alloc),
            Shape::Compose(left, _) => left.rate(alloc),
            Shape::Collect(_, _, rate, _) => rate.try_copy(alloc),
        }
    }

    #[cycle(rate)]
    pub(crate) fn boxed_rate(&self, alloc: Global) -> Result<Box<Rate>, AllocError>
        ensures { IfOk result (λ rate.
            rates.plain_of rate.value ≡ rate_of (plain_of self.now.shape)) }
    {
        Ok(Box::new(alloc, self.rate(alloc)?)?)
    }

    /// An equal query, with the same places.
    #[cycle(copy)]
    pub fn try_copy(&self, alloc: Global) -> Result<Query, AllocError>
        ensures query { IfOk result (λ copy. plain_of copy.shape ≡ plain_of self.now.shape) }
        ensures spans { IfOk result (λ copy. spans_of copy.shape ≡ spans_of self.now.shape) }
        ensures span { IfOk result (λ copy. copy.span ≡ self.now.span) }
    {
        Ok(Query {
            shape: self.copy_of_shape(alloc)?,
            span: self.span,
        })
    }

    #[cycle(copy)]
    fn copy_of_shape(&self, alloc: Global) -> Result<Shape, AllocError>
        ensures query { IfOk result (λ copy. plain_of copy ≡ plain_of self.now.shape) }
        ensures spans { IfOk result (λ copy. spans_of copy ≡ spans_of self.now.shape) }
    {
        match &self.shape {
            Shape::Atom(pred, value) => copy_of_atom(pred, value, alloc),
            Shape::Eps(number) => Ok(Shape::Eps(*number)),
            Shape::Or(left, right) => copy_of_choice(left, right, alloc),
            Shape::Split(left, right, value) => copy_of_split(left, right, value, alloc),
            Shape::Iter(inner, number, value) => copy_of_iter(inner, *number, value, alloc),
            Shape::Combine(left, right, value) => copy_of_combine(left, right, value, alloc),
            Shape::Apply(inner, value) => copy_of_apply(inner, value, alloc),
            Shape::Compose(left, right) => copy_of_compose(left, right, alloc),
            Shape::Collect(columns, sync, rate, inner) => {
                copy_of_collect(columns, sync, rate, inner, alloc)
            }
        }
    }

    #[cycle(copy)]
    pub(crate) fn boxed_copy(&self, alloc: Global) -> Result<Box<Query>, AllocError>
        ensures query { IfOk result (λ copy. plain_of copy.value.shape ≡ plain_of self.now.shape) }
        ensures spans { IfOk result (λ copy. spans_of copy.value.shape ≡ spans_of self.now.shape) }
        ensures span { IfOk result (λ copy. copy.value.span ≡ self.now.span) }
    {
        Ok(Box::new(alloc, self.try_copy(alloc)?)?)
    }
}
