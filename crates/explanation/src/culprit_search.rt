//! The name that a refusal is about.
ghost use Rattle.std.specs.Prelude.{◌≡◌, find, option_copied, IfOk};
ghost use Rattle.std.specs.List.{list_any};
ghost use Rattle.query_syntax.specs.Plain.{plain_program, plain_query};
ghost use Rattle.explanation.specs.Culprits.{culprit_in, culprit_of, culprit_on_items};
ghost use Rattle.explanation.specs.Culprits.{culprit_on_values, declared_at, own_culprit, query_at};
ghost use Rattle.explanation.specs.Scopes.{plain_scope};
ghost use Rattle.explanation.specs.Spots.{has_in, is_at};

use crate::culprit::Culprit;
use crate::node::node_culprit;
use crate::scope::Scope;
use crate::spots::{has_in, is_at};
use crate::uses::is_on_values;
use language_base::{Refusal, Span};
use query_syntax::{Column, Let, Program, Query};
use std::alloc::{AllocError, Global};

/// The name that the refusal of this program is about, if it is about one.
pub(crate) fn culprit_of(
    alloc: Global,
    program: &Program,
    refusal: Refusal,
) -> Result<Option<Culprit>, AllocError>
    ensures { IfOk result (λ culprit. culprit ≡ culprit_of (plain_program program.now) refusal) }
{
    let on_items = culprit_on_items(alloc, program, refusal)?;
    let of_node = on_items.or(culprit_on_values(program, refusal));
    Ok(declared_at(program, refusal.span).or(of_node))
}

/// The same, if names at the refused node stand for columns of the items.
pub(crate) fn culprit_on_items(
    alloc: Global,
    program: &Program,
    refusal: Refusal,
) -> Result<Option<Culprit>, AllocError>
    ensures { IfOk result (λ culprit.
        culprit ≡ culprit_on_items (plain_program program.now) refusal) }
{
    if is_on_values(alloc, refusal.span, program)? {
        return Ok(None);
    }
    let scope = Scope::Item(&program.stream.columns);
    Ok(culprit_in(refusal, scope, query_at(program, refusal.span)))
}

/// The same, if they stand for what a composition gives to its right operand.
pub(crate) fn culprit_on_values(program: &Program, refusal: Refusal) -> Option<Culprit>
    ensures { result ≡ culprit_on_values (plain_program program.now) refusal }
{
    culprit_in(refusal, Scope::Value, query_at(program, refusal.span))
}

// The name at the place, if a column or a let is declared by it: then an earlier one has the name.
fn declared_at(program: &Program, place: Span) -> Option<Culprit>
    ensures { result ≡ declared_at (plain_program program.now) place }
{
    if declares_column(&program.stream.columns, place) {
        Some(Culprit::TwiceColumn(place))
    } else {
        declares_let(&program.lets, place).then_some(Culprit::TwiceLet(place))
    }
}

fn declares_column(columns: &[Column], place: Span) -> bool
    ensures { result ≡ list_any (λ c. is_at c.name.span place) columns.now }
{
    columns.iter().any(|column| is_at(column.name.span, place))
}

fn declares_let(lets: &[Let], place: Span) -> bool
    ensures { result ≡ list_any (λ one. is_at one.name.span place) lets.now }
{
    lets.iter().any(|one| is_at(one.name.span, place))
}

/// The query in which the place lies.
pub(crate) fn query_at(program: &Program, place: Span) -> &Query
    ensures { plain_query result.now ≡ query_at (plain_program program.now) place }
{
    match let_at(&program.lets, place) {
        Some(one) => &one.query,
        None => &program.main.query,
    }
}

fn let_at(lets: &[Let], place: Span) -> Option<&Let>
    ensures { option_copied result ≡ find (λ one. has_in one.span place) lets.now }
{
    lets.iter().find(|one| has_in(one.span, place))
}

// The same in a query whose names stand for what the scope says: only the refused node counts.
fn culprit_in(refusal: Refusal, scope: Scope<'_>, query: &Query) -> Option<Culprit>
    ensures { result ≡ culprit_in refusal (plain_scope scope.entry) (plain_query query.now) }
{
    let own = own_culprit(refusal, scope, query);
    match query {
        Query::Name(_) | Query::Atom { .. } | Query::Eps { .. } => own,
        Query::Or { left, right, .. }
        | Query::Split { left, right, .. }
        | Query::Combine { left, right, .. } => {
            let operands = culprit_in(refusal, scope, left).or(culprit_in(refusal, scope, right));
            operands.or(own)
        }
        Query::Compose { left, right, .. } => {
            culprit_in(refusal, scope, left).or(culprit_in(refusal, Scope::Value, right))
        }
        Query::Iter { operand, .. }
        | Query::Apply { operand, .. }
        | Query::Collect { body: operand, .. } => culprit_in(refusal, scope, operand).or(own),
    }
}

// The same at this node alone, and none if it is not the refused one.
fn own_culprit(refusal: Refusal, scope: Scope<'_>, query: &Query) -> Option<Culprit>
    ensures { result ≡ own_culprit refusal (plain_scope scope.entry) (plain_query query.now) }
{
    if is_at(query.span(), refusal.span) {
        node_culprit(refusal.rule, scope, query)
    } else {
        None
    }
}
