//! The lets of the nodes of a query, operands first.
ghost use Rattle.std.specs.Prelude.{◌≡◌, ◌<◌, ◌-◌, ◌^◌, codes, length, IfOk};
ghost use Rattle.std.specs.Fmt.{signed_decimal};
ghost use Rattle.predicates.specs.Plain as predicates;
ghost use Rattle.query_model.specs.Keys.{IsKeySize};
ghost use Rattle.query_model.specs.Queries.{plain_of};
ghost use Rattle.query_text.specs.Forms.{both, called, expression_text, key_text, predicate_text};
ghost use Rattle.query_text.specs.Forms.{rate_text};
ghost use Rattle.query_text.specs.LetTexts.{added_text, placed_texts};
ghost use Rattle.query_text.specs.Memory.{FitsMemory, HasOperands, HasTextKeys, HaveOperands};
ghost use Rattle.query_text.specs.Names.{let_name};
ghost use Rattle.query_text.specs.Namings.{naming_of};
ghost use Rattle.rate_expr.specs.Plain as rates;
ghost use Rattle.expressions.specs.Expressions as values;

use crate::expression_text::write_expression;
use crate::lets::Lets;
use crate::naming::{Naming, write_let_name};
use crate::pieces::{close, comma, open, write_number};
use crate::predicate_text::write_predicate;
use crate::rate_text::{write_key, write_rate};
use expressions::Expr;
use memory_bound::width;
use predicates::Pred;
use query_model::{KeyColumns, Query, Shape};
use rate_expr::Rate;
use std::alloc::{AllocError, Global};

/// Adds the lets of the query's nodes; the answer is the place of its own.
#[cycle(lets)]
pub(crate) fn place_of(
    query: &Query,
    naming: &Naming<'_>,
    lets: &mut Lets,
    alloc: Global,
) -> Result<usize, AllocError>
    ensures placed { IfOk result (λ place. placed_texts (naming_of naming.now)
        (plain_of query.now.shape) lets.old ≡ record { texts = lets.new; place = place }) }
    ensures kept { IfOk result (λ place. FitsMemory (plain_of query.now.shape)) }
    ensures small { IfOk result (λ place. place < 2 ^ 63 - 1) }
{
    let text = own_text(query, naming, lets, alloc)?;
    lets.place_of(text)
}

/// The text of the query's own let, after the lets of its operands are added.
#[cycle(lets)]
fn own_text(
    query: &Query,
    naming: &Naming<'_>,
    lets: &mut Lets,
    alloc: Global,
) -> Result<Vec<u8>, AllocError>
    ensures text { IfOk result (λ text. placed_texts (naming_of naming.now) (plain_of query.now.shape)
        lets.old ≡ added_text lets.new text.items) }
    ensures kept { IfOk result (λ text. FitsMemory (plain_of query.now.shape)) }
{
    match &query.shape {
        Shape::Atom(pred, value) => atom_text(pred, value, naming, alloc),
        Shape::Eps(number) => eps_text(*number, alloc),
        Shape::Or(left, right) => {
            let left = place_of(left, naming, lets, alloc)?;
            let right = place_of(right, naming, lets, alloc)?;
            pair_text(b"or", left, right, alloc)
        }
        Shape::Split(left, right, value) => {
            let left = place_of(left, naming, lets, alloc)?;
            let right = place_of(right, naming, lets, alloc)?;
            joined_text(b"split", left, right, value, naming, alloc)
        }
        Shape::Iter(inner, number, value) => {
            let inner = place_of(inner, naming, lets, alloc)?;
            iter_text(inner, *number, value, naming, alloc)
        }
        Shape::Combine(left, right, value) => {
            let left = place_of(left, naming, lets, alloc)?;
            let right = place_of(right, naming, lets, alloc)?;
            joined_text(b"combine", left, right, value, naming, alloc)
        }
        Shape::Apply(inner, value) => {
            let inner = place_of(inner, naming, lets, alloc)?;
            apply_text(inner, value, naming, alloc)
        }
        Shape::Compose(left, right) => {
            let values = Naming::Values(width(left));
            let left = place_of(left, naming, lets, alloc)?;
            let right = place_of(right, &values, lets, alloc)?;
            pair_text(b"compose", left, right, alloc)
        }
        Shape::Collect(columns, sync, rate, inner) => {
            let inner = place_of(inner, naming, lets, alloc)?;
            collect_text(columns, sync, rate, inner, naming, alloc)
        }
    }
}

fn atom_text(
    pred: &Pred,
    value: &Expr,
    naming: &Naming<'_>,
    alloc: Global,
) -> Result<Vec<u8>, AllocError>
    ensures text { IfOk result (λ text. text.items ≡ called (codes "atom")
        (both (predicate_text (naming_of naming.now) (predicates.plain_of pred.now))
        (expression_text (naming_of naming.now) (values.plain_of value.now)))) }
    ensures kept { IfOk result (λ text. HasOperands (predicates.plain_of pred.now)
        × HasTextKeys (values.plain_of value.now)) }
{
    let mut text = Vec::new(alloc);
    open(b"atom", &mut text)?;
    write_predicate(pred, naming, &mut text)?;
    comma(&mut text)?;
    write_expression(value, naming, &mut text)?;
    close(&mut text)?;
    Ok(text)
}

fn eps_text(number: i64, alloc: Global) -> Result<Vec<u8>, AllocError>
    ensures { IfOk result (λ text. text.items ≡ called (codes "eps") (signed_decimal number)) }
{
    let mut text = Vec::new(alloc);
    open(b"eps", &mut text)?;
    write_number(number, &mut text)?;
    close(&mut text)?;
    Ok(text)
}

/// The call of the word on two lets.
fn pair_text(word: &[u8], left: usize, right: usize, alloc: Global) -> Result<Vec<u8>, AllocError>
    requires left_fits { left < 2 ^ 63 - 1 }
    requires right_fits { right < 2 ^ 63 - 1 }
    ensures { IfOk result (λ text.
        text.items ≡ called word.now (both (let_name left) (let_name right))) }
{
    let mut text = Vec::new(alloc);
    open(word, &mut text)?;
    write_let_name(left, &mut text)?;
    comma(&mut text)?;
    write_let_name(right, &mut text)?;
    close(&mut text)?;
    Ok(text)
}

/// The call of the word on two lets and an expression on both values.
fn joined_text(
    word: &[u8],
    left: usize,
    right: usize,
    value: &Expr,
    naming: &Naming<'_>,
    alloc: Global,
) -> Result<Vec<u8>, AllocError>
    requires left_fits { left < 2 ^ 63 - 1 }
    requires right_fits { right < 2 ^ 63 - 1 }
    ensures text { IfOk result (λ text. text.items ≡ called word.now (both (let_name left)
        (both (let_name right)
        (expression_text (naming_of naming.now) (values.plain_of value.now))))) }
    ensures kept { IfOk result (λ text. HasTextKeys (values.plain_of value.now)) }
{
    let mut text = Vec::new(alloc);
    open(word, &mut text)?;
    write_let_name(left, &mut text)?;
    comma(&mut text)?;
    write_let_name(right, &mut text)?;
    comma(&mut text)?;
    write_expression(value, naming, &mut text)?;
    close(&mut text)?;
    Ok(text)
}

fn iter_text(
    inner: usize,
    number: i64,
    value: &Expr,
    naming: &Naming<'_>,
    alloc: Global,
) -> Result<Vec<u8>, AllocError>
    requires { inner < 2 ^ 63 - 1 }
    ensures text { IfOk result (λ text. text.items ≡ called (codes "iter") (both (let_name inner)
        (both (signed_decimal number)
        (expression_text (naming_of naming.now) (values.plain_of value.now))))) }
    ensures kept { IfOk result (λ text. HasTextKeys (values.plain_of value.now)) }
{
    let mut text = Vec::new(alloc);
    open(b"iter", &mut text)?;
    write_let_name(inner, &mut text)?;
    comma(&mut text)?;
    write_number(number, &mut text)?;
    comma(&mut text)?;
    write_expression(value, naming, &mut text)?;
    close(&mut text)?;
    Ok(text)
}

fn apply_text(
    inner: usize,
    value: &Expr,
    naming: &Naming<'_>,
    alloc: Global,
) -> Result<Vec<u8>, AllocError>
    requires { inner < 2 ^ 63 - 1 }
    ensures text { IfOk result (λ text. text.items ≡ called (codes "apply") (both (let_name inner)
        (expression_text (naming_of naming.now) (values.plain_of value.now)))) }
    ensures kept { IfOk result (λ text. HasTextKeys (values.plain_of value.now)) }
{
    let mut text = Vec::new(alloc);
    open(b"apply", &mut text)?;
    write_let_name(inner, &mut text)?;
    comma(&mut text)?;
    write_expression(value, naming, &mut text)?;
    close(&mut text)?;
    Ok(text)
}

fn collect_text(
    columns: &KeyColumns,
    sync: &Pred,
    rate: &Rate,
    inner: usize,
    naming: &Naming<'_>,
    alloc: Global,
) -> Result<Vec<u8>, AllocError>
    requires { inner < 2 ^ 63 - 1 }
    ensures text { IfOk result (λ text. text.items ≡ called (codes "collect")
        (both (key_text (naming_of naming.now) columns.now)
        (both (predicate_text (naming_of naming.now) (predicates.plain_of sync.now))
        (both (rate_text (naming_of naming.now) (rates.plain_of rate.now)) (let_name inner))))) }
    ensures kept { IfOk result (λ text. IsKeySize (length columns.now)
        × HasOperands (predicates.plain_of sync.now) × HaveOperands (rates.plain_of rate.now)) }
{
    let mut text = Vec::new(alloc);
    open(b"collect", &mut text)?;
    write_key(columns.as_slice(), naming, &mut text)?;
    comma(&mut text)?;
    write_predicate(sync, naming, &mut text)?;
    comma(&mut text)?;
    write_rate(rate, naming, &mut text)?;
    comma(&mut text)?;
    write_let_name(inner, &mut text)?;
    close(&mut text)?;
    Ok(text)
}
