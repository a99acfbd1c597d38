//! The name in a node by which it breaks the rule `name` or the rule `type`.
ghost use Rattle.std.specs.Prelude.{◌≡◌};
ghost use Rattle.query_syntax.specs.Plain.{plain_expression, plain_predicate, plain_query};
ghost use Rattle.query_syntax.specs.Plain.{plain_rate};
ghost use Rattle.explanation.specs.Culprits.{first_in_atom, in_atom, in_fold, in_keys, in_name};
ghost use Rattle.explanation.specs.Culprits.{kinds_in_atom, kinds_in_keys, names_in_atom};
ghost use Rattle.explanation.specs.Culprits.{node_culprit};
ghost use Rattle.explanation.specs.Scopes.{plain_scope};

use crate::culprit::Culprit;
use crate::key_names::{misfit_name, named_twice, unknown_of};
use crate::misfit::{misfit_item, misfit_read, misfit_test};
use crate::scope::Scope;
use crate::unknown_names::{unknown_column, unknown_item, unknown_name};
use language_base::{Rule, Span};
use query_syntax::{Expression, Key, Predicate, Query, Rate};

/// In a node without its operands.
pub(crate) fn node_culprit(rule: Rule, scope: Scope<'_>, query: &Query) -> Option<Culprit>
    ensures { result ≡ node_culprit rule (plain_scope scope.entry) (plain_query query.now) }
{
    match query {
        Query::Name(name) => in_name(rule, name.span),
        Query::Atom {
            predicate,
            value,
            ..
        } => in_atom(rule, scope, predicate, value),
        Query::Split { value, .. } | Query::Combine { value, .. } => {
            in_fold(rule, Scope::Two, value)
        }
        Query::Iter { step, .. } => in_fold(rule, Scope::Two, step),
        Query::Apply { value, .. } => in_fold(rule, Scope::One, value),
        Query::Collect {
            key,
            sync,
            rate,
            ..
        } => in_keys(rule, scope, key, sync, rate),
        Query::Eps { .. } | Query::Or { .. } | Query::Compose { .. } => None,
    }
}

// In the name of a query.
fn in_name(rule: Rule, span: Span) -> Option<Culprit>
    ensures { result ≡ in_name rule span }
{
    match rule {
        Rule::Name => Some(Culprit::NoLet(span)),
        _ => None,
    }
}

// In an atom.
fn in_atom(
    rule: Rule,
    scope: Scope<'_>,
    predicate: &Predicate,
    value: &Expression,
) -> Option<Culprit>
    ensures { result ≡ in_atom rule (plain_scope scope.entry)
        (plain_predicate predicate.now) (plain_expression value.now) }
{
    match rule {
        Rule::Name => names_in_atom(scope, predicate, value),
        Rule::Mismatch => kinds_in_atom(scope, predicate, value),
        _ => None,
    }
}

fn names_in_atom(scope: Scope<'_>, predicate: &Predicate, value: &Expression) -> Option<Culprit>
    ensures { result ≡ names_in_atom (plain_scope scope.entry)
        (plain_predicate predicate.now) (plain_expression value.now) }
{
    let unknown = first_in_atom(scope, predicate, value);
    match scope {
        Scope::Value => unknown.or(first_in_atom(Scope::Misread, predicate, value)),
        _ => unknown,
    }
}

fn first_in_atom(scope: Scope<'_>, predicate: &Predicate, value: &Expression) -> Option<Culprit>
    ensures { result ≡ first_in_atom (plain_scope scope.entry)
        (plain_predicate predicate.now) (plain_expression value.now) }
{
    unknown_column(scope, predicate).or(unknown_name(scope, value))
}

fn kinds_in_atom(scope: Scope<'_>, predicate: &Predicate, value: &Expression) -> Option<Culprit>
    ensures { result ≡ kinds_in_atom (plain_scope scope.entry)
        (plain_predicate predicate.now) (plain_expression value.now) }
{
    match scope {
        Scope::Item(columns) => misfit_test(columns, predicate).or(misfit_read(columns, value)),
        _ => first_in_atom(Scope::Mistyped, predicate, value),
    }
}

// In an expression over the values of operands.
fn in_fold(rule: Rule, scope: Scope<'_>, value: &Expression) -> Option<Culprit>
    ensures { result ≡ in_fold rule (plain_scope scope.entry) (plain_expression value.now) }
{
    match rule {
        Rule::Name => unknown_name(scope, value),
        _ => None,
    }
}

// In the key, the predicate for items of all keys and the rate of a collection.
fn in_keys(
    rule: Rule,
    scope: Scope<'_>,
    key: &Key,
    sync: &Predicate,
    rate: &Rate,
) -> Option<Culprit>
    ensures { result ≡ in_keys rule (plain_scope scope.entry) key.now
        (plain_predicate sync.now) (plain_rate rate.now) }
{
    match rule {
        Rule::Name => {
            let tests = unknown_column(scope, sync).or(unknown_item(scope, rate));
            unknown_of(scope, key.names())
                .or(tests)
                .or(named_twice(key.names()))
        }
        Rule::Mismatch => kinds_in_keys(scope, key, sync, rate),
        _ => None,
    }
}

fn kinds_in_keys(scope: Scope<'_>, key: &Key, sync: &Predicate, rate: &Rate) -> Option<Culprit>
    ensures { result ≡ kinds_in_keys (plain_scope scope.entry) key.now
        (plain_predicate sync.now) (plain_rate rate.now) }
{
    match scope {
        Scope::Item(columns) => {
            let tests = misfit_test(columns, sync).or(misfit_item(columns, rate));
            let misfit = misfit_name(columns, key.names()).or(tests);
            misfit.or(Some(Culprit::Collected(key.span())))
        }
        _ => None,
    }
}
