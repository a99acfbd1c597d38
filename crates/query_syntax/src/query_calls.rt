//! The queries that calls write, from their arguments.
ghost use Rattle.std.specs.Prelude.{◌≡◌, [], ◌∷◌, IfOk, codes};
ghost use Rattle.query_forms.specs.declared.term_place.TermPlace.TheVariants as place;
ghost use Rattle.query_forms.specs.Terms.{none};
ghost use Rattle.query_parser.specs.Plain.{terms_of};
ghost use Rattle.query_syntax.specs.Calls.{IsCall};
ghost use Rattle.query_syntax.specs.Fits.{AllFit};
ghost use Rattle.query_syntax.specs.Plain.{plain_expression, plain_query};
ghost use Rattle.query_syntax.specs.Written.{expression_before, query_before};

use crate::expression_reading::boxed_expression;
use crate::key_reading::boxed_key;
use crate::leaf_reading::number_of;
use crate::predicate_reading::boxed_predicate;
use crate::query_reading::boxed_query;
use crate::rate_reading::boxed_rate;
use crate::{Expression, Query};
use language_base::Span;
use query_parser::Term;
use std::alloc::{AllocError, Global};

pub(crate) fn atom_of(alloc: Global, arguments: &[Term], span: Span) -> Result<Query, AllocError>
    requires { AllFit (place.Pred ∷ place.Expr ∷ []) arguments.now }
    ensures { IfOk result (λ query.
        IsCall (codes "atom") arguments.now span (query_before (plain_query query))) }
{
    let [predicate, value] = arguments else {
        unreachable!();
    };
    let predicate = boxed_predicate(alloc, predicate)?;
    Ok(Query::Atom {
        predicate,
        value: boxed_expression(alloc, value)?,
        span,
    })
}

pub(crate) fn eps_of(arguments: &[Term], span: Span) -> Query
    requires { AllFit (place.Number ∷ []) arguments.now }
    ensures { IsCall (codes "eps") arguments.now span (query_before (plain_query result)) }
{
    let [value] = arguments else {
        unreachable!();
    };
    Query::Eps {
        value: number_of(value),
        span,
    }
}

#[cycle(read_query)]
pub(crate) fn or_of(alloc: Global, arguments: &[Term], span: Span) -> Result<Query, AllocError>
    requires { AllFit (place.Query ∷ place.Query ∷ []) arguments.now }
    ensures { IfOk result (λ query.
        IsCall (codes "or") arguments.now span (query_before (plain_query query))) }
{
    let (left, right) = operands_of(alloc, arguments)?;
    Ok(Query::Or { left, right, span })
}

#[cycle(read_query)]
pub(crate) fn split_of(alloc: Global, arguments: &[Term], span: Span) -> Result<Query, AllocError>
    requires { AllFit (place.Query ∷ place.Query ∷ place.Expr ∷ []) arguments.now }
    ensures { IfOk result (λ query.
        IsCall (codes "split") arguments.now span (query_before (plain_query query))) }
{
    let (left, right, value) = operands_and_value(alloc, arguments)?;
    Ok(Query::Split {
        left,
        right,
        value,
        span,
    })
}

#[cycle(read_query)]
pub(crate) fn iter_of(alloc: Global, arguments: &[Term], span: Span) -> Result<Query, AllocError>
    requires { AllFit (place.Query ∷ place.Number ∷ place.Expr ∷ []) arguments.now }
    ensures { IfOk result (λ query.
        IsCall (codes "iter") arguments.now span (query_before (plain_query query))) }
{
    let [operand, first, step] = arguments else {
        unreachable!();
    };
    let operand = boxed_query(alloc, operand)?;
    Ok(Query::Iter {
        operand,
        first: number_of(first),
        step: boxed_expression(alloc, step)?,
        span,
    })
}

#[cycle(read_query)]
pub(crate) fn combine_of(alloc: Global, arguments: &[Term], span: Span) -> Result<Query, AllocError>
    requires { AllFit (place.Query ∷ place.Query ∷ place.Expr ∷ []) arguments.now }
    ensures { IfOk result (λ query.
        IsCall (codes "combine") arguments.now span (query_before (plain_query query))) }
{
    let (left, right, value) = operands_and_value(alloc, arguments)?;
    Ok(Query::Combine {
        left,
        right,
        value,
        span,
    })
}

#[cycle(read_query)]
pub(crate) fn apply_of(alloc: Global, arguments: &[Term], span: Span) -> Result<Query, AllocError>
    requires { AllFit (place.Query ∷ place.Expr ∷ []) arguments.now }
    ensures { IfOk result (λ query.
        IsCall (codes "apply") arguments.now span (query_before (plain_query query))) }
{
    let [operand, value] = arguments else {
        unreachable!();
    };
    let operand = boxed_query(alloc, operand)?;
    Ok(Query::Apply {
        operand,
        value: boxed_expression(alloc, value)?,
        span,
    })
}

#[cycle(read_query)]
pub(crate) fn compose_of(alloc: Global, arguments: &[Term], span: Span) -> Result<Query, AllocError>
    requires { AllFit (place.Query ∷ place.Query ∷ []) arguments.now }
    ensures { IfOk result (λ query.
        IsCall (codes "compose") arguments.now span (query_before (plain_query query))) }
{
    let (left, right) = operands_of(alloc, arguments)?;
    Ok(Query::Compose { left, right, span })
}

#[cycle(read_query)]
pub(crate) fn collect_of(alloc: Global, arguments: &[Term], span: Span) -> Result<Query, AllocError>
    requires { AllFit (place.Key ∷ place.Pred ∷ place.Rate ∷ place.Query ∷ []) arguments.now }
    ensures { IfOk result (λ query.
        IsCall (codes "collect") arguments.now span (query_before (plain_query query))) }
{
    let [key, sync, rate, body] = arguments else {
        unreachable!();
    };
    let key = boxed_key(alloc, key)?;
    let sync = boxed_predicate(alloc, sync)?;
    let rate = boxed_rate(alloc, rate)?;
    let body = boxed_query(alloc, body)?;
    Ok(Query::Collect {
        key,
        sync,
        rate,
        body,
        span,
    })
}

#[cycle(read_query)]
fn operands_of(alloc: Global, arguments: &[Term]) -> Result<(Box<Query>, Box<Query>), AllocError>
    requires { AllFit (place.Query ∷ place.Query ∷ []) arguments.now }
    ensures { IfOk result (λ operands. terms_of arguments.now
        ≡ query_before (plain_query operands.0.value)
        (query_before (plain_query operands.1.value) none)) }
{
    let [left, right] = arguments else {
        unreachable!();
    };
    Ok((boxed_query(alloc, left)?, boxed_query(alloc, right)?))
}

#[cycle(read_query)]
fn operands_and_value(
    alloc: Global,
    arguments: &[Term],
) -> Result<(Box<Query>, Box<Query>, Box<Expression>), AllocError>
    requires { AllFit (place.Query ∷ place.Query ∷ place.Expr ∷ []) arguments.now }
    ensures { IfOk result (λ parts. terms_of arguments.now
        ≡ query_before (plain_query parts.0.value) (query_before (plain_query parts.1.value)
        (expression_before (plain_expression parts.2.value) none))) }
{
    let [left, right, value] = arguments else {
        unreachable!();
    };
    let left = boxed_query(alloc, left)?;
    let right = boxed_query(alloc, right)?;
    Ok((left, right, boxed_expression(alloc, value)?))
}
