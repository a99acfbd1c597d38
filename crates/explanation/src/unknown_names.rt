//! The first name that is not known where it stands.
ghost use Rattle.std.specs.Prelude.{◌≡◌};
ghost use Rattle.query_syntax.specs.Plain.{plain_expression, plain_expressions, plain_predicate};
ghost use Rattle.query_syntax.specs.Plain.{plain_rate};
ghost use Rattle.explanation.specs.Scopes.{plain_scope};
ghost use Rattle.explanation.specs.Unknown.{unknown_column, unknown_item, unknown_name};
ghost use Rattle.explanation.specs.Unknown.{unknown_part};

use crate::culprit::Culprit;
use crate::scope::{Scope, unless_known};
use query_syntax::{Expression, Predicate, Rate};

/// The first name in a predicate that is not known in the scope.
pub(crate) fn unknown_column(scope: Scope<'_>, predicate: &Predicate) -> Option<Culprit>
    ensures { result ≡ unknown_column (plain_scope scope.entry) (plain_predicate predicate.now) }
{
    match predicate {
        Predicate::Any(_) => None,
        Predicate::Equality { column, .. }
        | Predicate::Order { column, .. }
        | Predicate::Between { column, .. }
        | Predicate::IsNum { column, .. } => unless_known(scope, column),
        Predicate::Joined { left, right, .. } => {
            unknown_column(scope, left).or(unknown_column(scope, right))
        }
        Predicate::Not { operand, .. } => unknown_column(scope, operand),
    }
}

/// The first name in a rate that is not known in the scope.
pub(crate) fn unknown_item(scope: Scope<'_>, rate: &Rate) -> Option<Culprit>
    ensures { result ≡ unknown_item (plain_scope scope.entry) (plain_rate rate.now) }
{
    match rate {
        Rate::Eps(_) => None,
        Rate::Item { predicate, .. } => unknown_column(scope, predicate),
        Rate::Joined { left, right, .. } => {
            unknown_item(scope, left).or(unknown_item(scope, right))
        }
        Rate::Star { operand, .. } => unknown_item(scope, operand),
    }
}

/// The first name in an expression that is not known in the scope.
#[cycle(unknown)]
pub(crate) fn unknown_name(scope: Scope<'_>, expression: &Expression) -> Option<Culprit>
    ensures { result ≡ unknown_name (plain_scope scope.entry) (plain_expression expression.now) }
{
    match expression {
        Expression::Number(_) => None,
        Expression::Name(name) => unless_known(scope, name),
        Expression::Unary { operand, .. } => unknown_name(scope, operand),
        Expression::Binary { left, right, .. } => {
            unknown_name(scope, left).or(unknown_name(scope, right))
        }
        Expression::If {
            test,
            holds,
            fails,
            ..
        } => {
            let compared = unknown_name(scope, &test.left).or(unknown_name(scope, &test.right));
            compared.or(unknown_name(scope, holds).or(unknown_name(scope, fails)))
        }
        Expression::Summary { table, .. } => unless_known(scope, table),
        Expression::Extremum { table, first, .. } => {
            unless_known(scope, table).or(unknown_name(scope, first))
        }
        Expression::Get { table, absent, .. } => {
            unless_known(scope, table).or(unknown_name(scope, absent))
        }
        Expression::Record { parts, .. } => unknown_part(scope, parts.as_slice()),
        Expression::Part { whole, .. } => unless_known(scope, whole),
    }
}

// The same in the parts of a record.
#[cycle(unknown)]
fn unknown_part(scope: Scope<'_>, parts: &[Expression]) -> Option<Culprit>
    ensures { result ≡ unknown_part (plain_scope scope.entry) (plain_expressions parts.now) }
{
    'parts: for part in parts {
        if let Some(culprit) = unknown_name(scope, part) {
            return Some(culprit);
        }
    }
    None
}
