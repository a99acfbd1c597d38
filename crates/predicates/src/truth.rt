//! Whether an item meets a predicate.
ghost use Rattle.std.specs.Prelude.{◌≡◌, ◌&&◌, int_le, int_lt, is_some};
ghost use Rattle.std.specs.Ordering.{int_eq};
ghost use Rattle.std.specs.Str.{bytes_eq};
ghost use Rattle.predicates.specs.Plain.{plain_of};
ghost use Rattle.predicates.specs.Predicates.{conjunction, disjunction};
ghost use Rattle.predicates.specs.Truth.{holds, number_in, passes, text_in};

use crate::Pred;
use crate::row::{Fields, Row};
use item_schema::Item;
use value_ops::Bytes;

pub fn holds(pred: &Pred, item: &Item) -> bool
    ensures { result ≡ holds (plain_of pred.now) item.now }
{
    holds_in(pred, &Fields(item.fields()))
}

/// Whether a row meets the predicate.
#[cycle(holds)]
pub fn holds_in<R: Row>(pred: &Pred, row: &R) -> bool
    ensures { result ≡ holds (plain_of pred.now) (R.fields row.now) }
{
    match pred {
        Pred::Any => true,
        &Pred::Eq(column, n) => is_equal(row, column, n),
        &Pred::Ne(column, n) => !is_equal(row, column, n),
        &Pred::Lt(column, n) => is_less(row, column, n),
        &Pred::Le(column, n) => is_at_most(row, column, n),
        &Pred::Gt(column, n) => is_greater(row, column, n),
        &Pred::Ge(column, n) => is_at_least(row, column, n),
        &Pred::Between(column, low, high) => is_between(row, column, low, high),
        Pred::EqText(column, text) => is_text(row, *column, text),
        Pred::NeText(column, text) => !is_text(row, *column, text),
        &Pred::IsNum(column) => is_number(row, column),
        Pred::And(left, right) => both_hold(left, right, row),
        Pred::Or(left, right) => either_holds(left, right, row),
        Pred::Not(inner) => !holds_in(inner, row),
    }
}

#[cycle(holds)]
#[inline(always)]
fn both_hold<R: Row>(left: &Pred, right: &Pred, row: &R) -> bool
    ensures { result
        ≡ holds (conjunction (plain_of left.now) (plain_of right.now)) (R.fields row.now) }
{
    holds_in(left, row) && holds_in(right, row)
}

#[cycle(holds)]
#[inline(always)]
fn either_holds<R: Row>(left: &Pred, right: &Pred, row: &R) -> bool
    ensures { result
        ≡ holds (disjunction (plain_of left.now) (plain_of right.now)) (R.fields row.now) }
{
    holds_in(left, row) || holds_in(right, row)
}

#[inline(always)]
fn is_equal<R: Row>(row: &R, column: u32, n: i64) -> bool
    ensures { result ≡ passes (λ x. int_eq x n) (number_in (R.fields row.now) column) }
{
    row.number(column).is_some_and(|x| x == n)
}

#[inline(always)]
fn is_less<R: Row>(row: &R, column: u32, n: i64) -> bool
    ensures { result ≡ passes (λ x. int_lt x n) (number_in (R.fields row.now) column) }
{
    row.number(column).is_some_and(|x| x < n)
}

#[inline(always)]
fn is_at_most<R: Row>(row: &R, column: u32, n: i64) -> bool
    ensures { result ≡ passes (λ x. int_le x n) (number_in (R.fields row.now) column) }
{
    row.number(column).is_some_and(|x| x <= n)
}

#[inline(always)]
fn is_greater<R: Row>(row: &R, column: u32, n: i64) -> bool
    ensures { result ≡ passes (λ x. int_lt n x) (number_in (R.fields row.now) column) }
{
    row.number(column).is_some_and(|x| x > n)
}

#[inline(always)]
fn is_at_least<R: Row>(row: &R, column: u32, n: i64) -> bool
    ensures { result ≡ passes (λ x. int_le n x) (number_in (R.fields row.now) column) }
{
    row.number(column).is_some_and(|x| x >= n)
}

#[inline(always)]
fn is_between<R: Row>(row: &R, column: u32, low: i64, high: i64) -> bool
    ensures { result
        ≡ passes (λ x. int_le low x && int_le x high) (number_in (R.fields row.now) column) }
{
    row.number(column).is_some_and(|x| low <= x && x <= high)
}

#[inline(always)]
fn is_text<R: Row>(row: &R, column: u32, text: &Bytes) -> bool
    ensures { result ≡ passes (λ x. bytes_eq x text.now) (text_in (R.fields row.now) column) }
{
    row.text(column).is_some_and(|x| x == text.as_slice())
}

#[inline(always)]
fn is_number<R: Row>(row: &R, column: u32) -> bool
    ensures { result ≡ is_some (number_in (R.fields row.now) column) }
{
    row.number(column).is_some()
}
