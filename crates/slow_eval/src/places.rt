//! Rows of answers. A row has an answer, or none, for each place of a word, from the place before
//! its first item to the place after its last:
//!
//!     items            a   b   c
//!     places         0   1   2   3     the answer at place 2 is that on the front a b
ghost use Rattle.std.specs.Prelude.{◌≡◌, ◌<◌, ◌≤◌, ◌+◌, ◌^◌, ℕ, length, Some, None, IfOk, OnOk};
ghost use Rattle.std.specs.Option.{option_or};
ghost use Rattle.value_ops.specs.declared.value.Value.{Value};
ghost use Rattle.expressions.specs.Expressions.{plain_of};
ghost use Rattle.slow_eval.specs.Rows.{answer_at, IsJoined, IsOnBoth, IsOnOne, IsPut};
ghost use Rattle.slow_eval.specs.Rows.{IsTypedOnBoth, IsTypedOnOne};

use expressions::Expr;
use std::alloc::{AllocError, Global};
use value_ops::Value;

/// A row without answers, for a word of this number of items.
pub(crate) fn no_answers(alloc: Global, items: usize) -> Result<Vec<Option<Value>>, AllocError>
    requires { items < 2 ^ 63 }
    ensures count { IfOk result (λ row. length row.items ≡ items + 1) }
    ensures none { IfOk result (λ row. (place : ℕ) → answer_at row.items place ≡ None) }
{
    let mut row = Vec::new(alloc);
    'places: for _place in 0..items + 1 {
        row.push(None)?;
    }
    Ok(row)
}

pub(crate) fn copied(alloc: Global, answer: &Option<Value>) -> Result<Option<Value>, AllocError>
    ensures { IfOk result (λ copy. copy ≡ answer.now) }
{
    match answer {
        Some(value) => Ok(Some(value.try_copy(alloc)?)),
        None => Ok(None),
    }
}

/// At each place the answer of the first row, or else that of the second.
pub(crate) fn either(
    mut row: Vec<Option<Value>>,
    mut other: Vec<Option<Value>>,
) -> Vec<Option<Value>>
    requires { length row.items ≡ length other.items }
    ensures count { length result.items ≡ length row.items }
    ensures each { (place : ℕ) → place < length row.items → answer_at result.items place
        ≡ option_or (answer_at row.items place) (answer_at other.items place) }
{
    'places: for place in 0..row.len() {
        if row[place].is_none() {
            row[place] = other[place].take();
        }
    }
    row
}

/// At each place what the expression gives on the answer there.
pub(crate) fn applied(
    alloc: Global,
    expression: &Expr,
    row: &[Option<Value>],
) -> Result<Vec<Option<Value>>, AllocError>
    requires { (place : ℕ) (left : Value) → answer_at row.now place ≡ Some left
        → IsTypedOnOne (plain_of expression.now) left }
    ensures count { IfOk result (λ given. length given.items ≡ length row.now) }
    ensures each { IfOk result (λ given. (place : ℕ) → place < length row.now
        → IsOnOne (plain_of expression.now) (answer_at row.now place)
        (answer_at given.items place)) }
{
    let mut given = Vec::new(alloc);
    'places: for answer in row {
        given.push(match answer {
            Some(left) => Some(expression.eval(alloc, &[], Some(left), None)?),
            None => None,
        })?;
    }
    Ok(given)
}

/// What the expression gives on two answers, if there are both.
fn on_both(
    alloc: Global,
    expression: &Expr,
    left: &Option<Value>,
    right: &Option<Value>,
) -> Result<Option<Value>, AllocError>
    requires { (x y : Value) → left.now ≡ Some x → right.now ≡ Some y
        → IsTypedOnBoth (plain_of expression.now) x y }
    ensures { IfOk result (IsOnBoth (plain_of expression.now) left.now right.now) }
{
    match (left, right) {
        (Some(left), Some(right)) => {
            Ok(Some(expression.eval(alloc, &[], Some(left), Some(right))?))
        }
        _ => Ok(None),
    }
}

/// At each place what the expression gives on both answers there.
pub(crate) fn combined(
    alloc: Global,
    expression: &Expr,
    row: &[Option<Value>],
    other: &[Option<Value>],
) -> Result<Vec<Option<Value>>, AllocError>
    requires count { length row.now ≡ length other.now }
    requires typed { (place : ℕ) (left right : Value) → answer_at row.now place ≡ Some left
        → answer_at other.now place ≡ Some right
        → IsTypedOnBoth (plain_of expression.now) left right }
    ensures count { IfOk result (λ given. length given.items ≡ length row.now) }
    ensures each { IfOk result (λ given. (place : ℕ) → place < length row.now
        → IsOnBoth (plain_of expression.now) (answer_at row.now place)
        (answer_at other.now place) (answer_at given.items place)) }
{
    let mut given = Vec::new(alloc);
    'places: for place in 0..row.len() {
        given.push(on_both(alloc, expression, &row[place], &other[place])?)?;
    }
    Ok(given)
}

/// If there is a right value, replaces the answer by what the expression gives on both values.
fn put(
    alloc: Global,
    expression: &Expr,
    left: &Value,
    right: &Option<Value>,
    answer: &mut Option<Value>,
) -> Result<(), AllocError>
    requires { (value : Value) → right.now ≡ Some value
        → IsTypedOnBoth (plain_of expression.now) left.now value }
    ensures { OnOk result
        (IsPut (plain_of expression.now) left.now right.now answer.old answer.new) }
{
    if let Some(right) = right {
        *answer = Some(expression.eval(alloc, &[], Some(left), Some(right))?);
    }
    Ok(())
}

/// Puts into the row, from the place `from` on, what the expression gives on the left value and on
/// each of the right ones.
pub(crate) fn join(
    alloc: Global,
    expression: &Expr,
    left: &Value,
    rights: &[Option<Value>],
    row: &mut [Option<Value>],
    from: usize,
) -> Result<(), AllocError>
    requires room { from + length rights.now ≤ length row.old }
    requires typed { (place : ℕ) (value : Value) → answer_at rights.now place ≡ Some value
        → IsTypedOnBoth (plain_of expression.now) left.now value }
    ensures { OnOk result
        (IsJoined (plain_of expression.now) left.now rights.now from row.old row.new) }
{
    'places: for place in 0..rights.len() {
        put(
            alloc,
            expression,
            left,
            &rights[place],
            &mut row[from + place],
        )?;
    }
    Ok(())
}
