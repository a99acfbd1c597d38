//! The search for the values of a query that parts a word into pieces.
ghost use Rattle.std.specs.Prelude.{◌≡◌, ◌<◌, ◌≤◌, ◌+◌, drop, length, IfOk, OnOk};
ghost use Rattle.expressions.specs.Expressions as values;
ghost use Rattle.query_model.specs.Queries.{iter, plain_of, split};
ghost use Rattle.slow_eval.specs.Answers.{AreAnswers, CanBeRead};
ghost use Rattle.slow_eval.specs.Rests.{IsJoinedWithRest, IsTypedWithRest};
ghost use Rattle.slow_eval.specs.Rows.{answer_at};

use crate::leaf_answers::eps_answers;
use crate::places::{copied, join, no_answers};
use crate::search::answers_on_fronts;
use expressions::Expr;
use item_schema::Item;
use query_model::Query;
use std::alloc::{AllocError, Global};
use value_ops::Value;

#[cycle(search)]
pub(crate) fn split_answers(
    alloc: Global,
    left: &Query,
    right: &Query,
    expression: &Expr,
    word: &[Item],
) -> Result<Vec<Option<Value>>, AllocError>
    requires { let query = split (plain_of left.now.shape) (plain_of right.now.shape)
        (values.plain_of expression.now) in CanBeRead query word.now }
    ensures { let query = split (plain_of left.now.shape) (plain_of right.now.shape)
        (values.plain_of expression.now) in
        IfOk result (λ answers. AreAnswers query word.now answers.items) }
{
    let lefts = answers_on_fronts(alloc, left, word)?;
    let mut row = no_answers(alloc, word.len())?;
    'places: for place in 0..lefts.len() {
        let rest = &word[place..];
        join_rest(
            alloc,
            right,
            expression,
            &lefts[place],
            rest,
            &mut row,
            place,
        )?;
    }
    Ok(row)
}

#[cycle(search)]
pub(crate) fn iter_answers(
    alloc: Global,
    inner: &Query,
    number: i64,
    expression: &Expr,
    word: &[Item],
) -> Result<Vec<Option<Value>>, AllocError>
    requires { let query = iter (plain_of inner.now.shape) number
        (values.plain_of expression.now) in CanBeRead query word.now }
    ensures { let query = iter (plain_of inner.now.shape) number
        (values.plain_of expression.now) in
        IfOk result (λ answers. AreAnswers query word.now answers.items) }
{
    let mut row = eps_answers(alloc, number, word)?;
    'places: for place in 0..row.len() {
        join_piece(alloc, inner, expression, word, &mut row, place)?;
    }
    Ok(row)
}

/// The answer at the place is a left value. Puts into the row what the expression gives on it and
/// on each answer of the query on the rest of the word.
#[cycle(search)]
fn join_piece(
    alloc: Global,
    query: &Query,
    expression: &Expr,
    word: &[Item],
    row: &mut [Option<Value>],
    place: usize,
) -> Result<(), AllocError>
    requires read { CanBeRead (plain_of query.now.shape) (drop place word.now) }
    requires room { length row.old ≡ length word.now + 1 }
    requires inside { place ≤ length word.now }
    requires typed { IsTypedWithRest (plain_of query.now.shape) (drop place word.now)
        (values.plain_of expression.now) (answer_at row.old place) }
    ensures { OnOk result (IsJoinedWithRest (plain_of query.now.shape) (drop place word.now)
        (values.plain_of expression.now) (answer_at row.old place) place row.old row.new) }
{
    let so_far = copied(alloc, &row[place])?;
    join_rest(
        alloc,
        query,
        expression,
        &so_far,
        &word[place..],
        row,
        place,
    )
}

/// Puts into the row, from the place `from` on, what the expression gives on the left value, if
/// there is one, and on each answer of the query on the rest.
#[cycle(search)]
fn join_rest(
    alloc: Global,
    query: &Query,
    expression: &Expr,
    left: &Option<Value>,
    rest: &[Item],
    row: &mut [Option<Value>],
    from: usize,
) -> Result<(), AllocError>
    requires read { CanBeRead (plain_of query.now.shape) rest.now }
    requires room { from + length rest.now < length row.old }
    requires typed { IsTypedWithRest (plain_of query.now.shape) rest.now
        (values.plain_of expression.now) left.now }
    ensures { OnOk result (IsJoinedWithRest (plain_of query.now.shape) rest.now
        (values.plain_of expression.now) left.now from row.old row.new) }
{
    if let Some(left) = left {
        let rights = answers_on_fronts(alloc, query, rest)?;
        join(alloc, expression, left, &rights, row, from)?;
    }
    Ok(())
}
