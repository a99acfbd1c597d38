//! A second place that helps to understand a refusal.
ghost use Rattle.std.specs.Prelude.{◌≡◌, IfOk};
ghost use Rattle.query_syntax.specs.Plain.{plain_predicate, plain_program, plain_query};
ghost use Rattle.explanation.specs.Asides.{aside_of, lack_at, lack_of, test_in, test_of};
ghost use Rattle.explanation.specs.Asides.{use_inside, values_for};

use crate::culprit::Culprit;
use crate::culprit_search::{culprit_on_items, culprit_on_values, query_at};
use crate::spots::is_at;
use crate::uses::{Inside, first_use};
use language_base::{Refusal, Rule, Span};
use query_syntax::{Predicate, Program, Query};
use std::alloc::{AllocError, Global};

/// A place other than that of the refusal.
#[derive(Clone, Copy)]
pub(crate) enum Aside {
    /// Where a let is used so that its query stands inside of another.
    Use(Span),
    /// A test that all values are to meet.
    Test(Span),
    /// An atom that takes a single value.
    Single(Span),
}

/// The place that helps to understand the refusal of this program, if there is one.
pub(crate) fn aside_of(
    alloc: Global,
    program: &Program,
    refusal: Refusal,
) -> Result<Option<Aside>, AllocError>
    ensures { IfOk result (λ aside. aside ≡ aside_of (plain_program program.now) refusal) }
{
    match refusal.rule {
        Rule::Name | Rule::Mismatch => {
            let on_items = culprit_on_items(alloc, program, refusal)?;
            let inside = values_for(on_items, culprit_on_values(program, refusal));
            use_inside(alloc, inside, program, refusal.span)
        }
        Rule::Nested => use_inside(alloc, Some(Inside::Collections), program, refusal.span),
        Rule::Compose => Ok(lack_at(refusal.span, query_at(program, refusal.span))),
        _ => Ok(None),
    }
}

fn values_for(on_items: Option<Culprit>, on_values: Option<Culprit>) -> Option<Inside>
    ensures { result ≡ values_for on_items on_values }
{
    match (on_items, on_values) {
        (None, Some(_)) => Some(Inside::Compositions),
        _ => None,
    }
}

fn use_inside(
    alloc: Global,
    inside: Option<Inside>,
    program: &Program,
    place: Span,
) -> Result<Option<Aside>, AllocError>
    ensures { IfOk result (λ aside.
        aside ≡ use_inside inside (plain_program program.now) place) }
{
    match inside {
        Some(inside) => Ok(first_use(alloc, inside, place, program)?.map(Aside::Use)),
        None => Ok(None),
    }
}

// What leaves lists of values without a value in the composition at the place.
fn lack_at(place: Span, query: &Query) -> Option<Aside>
    ensures { result ≡ lack_at place (plain_query query.now) }
{
    match query {
        Query::Name(_) | Query::Atom { .. } | Query::Eps { .. } => None,
        Query::Or { left, right, .. }
        | Query::Split { left, right, .. }
        | Query::Combine { left, right, .. } => lack_at(place, left).or(lack_at(place, right)),
        Query::Iter { operand, .. }
        | Query::Apply { operand, .. }
        | Query::Collect { body: operand, .. } => lack_at(place, operand),
        Query::Compose { left, right, span } => {
            if is_at(*span, place) {
                lack_of(right)
            } else {
                lack_at(place, left).or(lack_at(place, right))
            }
        }
    }
}

// What in the right operand of a composition leaves lists of values without a value.
fn lack_of(query: &Query) -> Option<Aside>
    ensures { result ≡ lack_of (plain_query query.now) }
{
    match query {
        Query::Atom { span, .. } => Some(Aside::Single(*span)),
        Query::Iter { operand, .. } => test_of(operand),
        Query::Apply { operand, .. } => lack_of(operand),
        _ => None,
    }
}

fn test_of(query: &Query) -> Option<Aside>
    ensures { result ≡ test_of (plain_query query.now) }
{
    match query {
        Query::Atom { predicate, .. } => test_in(predicate),
        _ => None,
    }
}

fn test_in(predicate: &Predicate) -> Option<Aside>
    ensures { result ≡ test_in (plain_predicate predicate.now) }
{
    match predicate {
        Predicate::Any(_) => None,
        _ => Some(Aside::Test(predicate.span())),
    }
}
