//! The search for the values of a query.
ghost use Rattle.std.specs.Prelude.{IfOk};
ghost use Rattle.expressions.specs.Expressions as values;
ghost use Rattle.query_model.specs.Following.{IsAnswer};
ghost use Rattle.query_model.specs.Queries.{apply, choice, combine, compose, plain_of};
ghost use Rattle.slow_eval.specs.Answers.{AreAnswers, CanBeRead};

use crate::collection::collect_answers;
use crate::derived_stream::{on_stream, stream_of};
use crate::leaf_answers::{atom_answers, eps_answers};
use crate::pieces::{iter_answers, split_answers};
use crate::places::{applied, combined, either};
use expressions::Expr;
use item_schema::Item;
use query_model::{Query, Shape};
use std::alloc::{AllocError, Global};
use value_ops::Value;

/// The answers of a query on all fronts of a word, from the empty one to the whole. A split or an
/// iter searches the rest after each front anew, and a collect the items of each key. So if these
/// are nested d deep, the time grows as the length of the word to the power of d + 1.
#[cycle(search)]
pub fn answers_on_fronts(
    alloc: Global,
    query: &Query,
    word: &[Item],
) -> Result<Vec<Option<Value>>, AllocError>
    requires { CanBeRead (plain_of query.now.shape) word.now }
    ensures { IfOk result (λ answers.
        AreAnswers (plain_of query.now.shape) word.now answers.items) }
{
    match &query.shape {
        Shape::Atom(pred, expression) => atom_answers(alloc, pred, expression, word),
        Shape::Eps(number) => eps_answers(alloc, *number, word),
        Shape::Or(left, right) => or_answers(alloc, left, right, word),
        Shape::Split(left, right, expression) => {
            split_answers(alloc, left, right, expression, word)
        }
        Shape::Iter(inner, number, expression) => {
            iter_answers(alloc, inner, *number, expression, word)
        }
        Shape::Combine(left, right, expression) => {
            combine_answers(alloc, left, right, expression, word)
        }
        Shape::Apply(inner, expression) => apply_answers(alloc, inner, expression, word),
        Shape::Compose(left, right) => compose_answers(alloc, left, right, word),
        Shape::Collect(columns, sync, rate, inner) => {
            collect_answers(alloc, columns.as_slice(), sync, rate, inner, word)
        }
    }
}

pub fn answer_on(alloc: Global, query: &Query, word: &[Item]) -> Result<Option<Value>, AllocError>
    requires { CanBeRead (plain_of query.now.shape) word.now }
    ensures { IfOk result (IsAnswer (plain_of query.now.shape) word.now) }
{
    let mut answers = answers_on_fronts(alloc, query, word)?;
    Ok(answers.pop().unwrap())
}

#[cycle(search)]
fn or_answers(
    alloc: Global,
    left: &Query,
    right: &Query,
    word: &[Item],
) -> Result<Vec<Option<Value>>, AllocError>
    requires { let query = choice (plain_of left.now.shape) (plain_of right.now.shape) in
        CanBeRead query word.now }
    ensures { let query = choice (plain_of left.now.shape) (plain_of right.now.shape) in
        IfOk result (λ answers. AreAnswers query word.now answers.items) }
{
    let answers = answers_on_fronts(alloc, left, word)?;
    Ok(either(answers, answers_on_fronts(alloc, right, word)?))
}

#[cycle(search)]
fn combine_answers(
    alloc: Global,
    first: &Query,
    second: &Query,
    expression: &Expr,
    word: &[Item],
) -> Result<Vec<Option<Value>>, AllocError>
    requires { let query = combine (plain_of first.now.shape) (plain_of second.now.shape)
        (values.plain_of expression.now) in CanBeRead query word.now }
    ensures { let query = combine (plain_of first.now.shape) (plain_of second.now.shape)
        (values.plain_of expression.now) in
        IfOk result (λ answers. AreAnswers query word.now answers.items) }
{
    let lefts = answers_on_fronts(alloc, first, word)?;
    let rights = answers_on_fronts(alloc, second, word)?;
    combined(alloc, expression, &lefts, &rights)
}

#[cycle(search)]
fn apply_answers(
    alloc: Global,
    inner: &Query,
    expression: &Expr,
    word: &[Item],
) -> Result<Vec<Option<Value>>, AllocError>
    requires { let query = apply (plain_of inner.now.shape) (values.plain_of expression.now) in
        CanBeRead query word.now }
    ensures { let query = apply (plain_of inner.now.shape) (values.plain_of expression.now) in
        IfOk result (λ answers. AreAnswers query word.now answers.items) }
{
    let answers = answers_on_fronts(alloc, inner, word)?;
    applied(alloc, expression, &answers)
}

#[cycle(search)]
fn compose_answers(
    alloc: Global,
    left: &Query,
    right: &Query,
    word: &[Item],
) -> Result<Vec<Option<Value>>, AllocError>
    requires { let query = compose (plain_of left.now.shape) (plain_of right.now.shape) in
        CanBeRead query word.now }
    ensures { let query = compose (plain_of left.now.shape) (plain_of right.now.shape) in
        IfOk result (λ answers. AreAnswers query word.now answers.items) }
{
    let firsts = answers_on_fronts(alloc, left, word)?;
    let stream = stream_of(alloc, &firsts)?;
    let seconds = answers_on_fronts(alloc, right, &stream)?;
    on_stream(alloc, &firsts, &seconds)
}
