//! Expressions whose names are resolved and whose types fit.
ghost use Rattle.std.specs.Prelude.{◌≡◌, IfErr, IfOk};
ghost use Rattle.query_model.specs.Queries.{Qre};
ghost use Rattle.query_syntax.specs.Plain.{plain_expression};
ghost use Rattle.query_resolver.specs.Expressions.{is_number};
ghost use Rattle.query_resolver.specs.Findings.{IsUnresolved};
ghost use Rattle.query_resolver.specs.Resolutions.{IsNumberOver, IsValueOver, number_then};
ghost use Rattle.query_resolver.specs.Resolutions.{typed_then};
ghost use Rattle.query_resolver.specs.Scopes.{HasFittingNumbers, plain_scope};
ghost use Rattle.expressions.specs.Expressions as values;
ghost use Rattle.expressions.specs.Shown.{shown_types};

use crate::CheckStop;
use crate::expression::{Scope, expression_over};
use expressions::{Expr, Types};
use language_base::{Rule, Span};
use query_syntax::Expression;
use std::alloc::Global;
use value_ops::ValueType;

/// The expression and its type, for a node that stands at the place.
pub fn value_over(
    alloc: Global,
    scope: Scope<'_>,
    types: &Types<'_>,
    expression: &Expression,
    span: Span,
) -> Result<(Expr, ValueType), CheckStop>
    ensures made { IfOk result (λ made. IsValueOver (plain_scope scope.entry)
        (shown_types types.now) (plain_expression expression.now) made.0 made.1) }
    ensures refused { IfErr result (λ stop. (make : values.Expression → Qre)
        → IsUnresolved (typed_then (plain_scope scope.entry) (shown_types types.now)
        (plain_expression expression.now) span make) stop) }
{
    let Some(value) = expression_over(alloc, scope, expression)? else {
        return Err(CheckStop::refused(Rule::Name, span));
    };
    match value.type_in(types) {
        Some(ty) => Ok((value, ty)),
        None => Err(CheckStop::refused(Rule::Mismatch, span)),
    }
}

/// The same of an expression that has to be a number.
pub fn number_over(
    alloc: Global,
    scope: Scope<'_>,
    types: &Types<'_>,
    expression: &Expression,
    span: Span,
) -> Result<Expr, CheckStop>
    ensures made { IfOk result (IsNumberOver (plain_scope scope.entry) (shown_types types.now)
        (plain_expression expression.now)) }
    ensures refused { IfErr result (λ stop. (make : values.Expression → Qre)
        → IsUnresolved (number_then (plain_scope scope.entry) (shown_types types.now)
        (plain_expression expression.now) span make) stop) }
{
    let Some(value) = expression_over(alloc, scope, expression)? else {
        return Err(CheckStop::refused(Rule::Name, span));
    };
    if !is_number(types, &value) {
        return Err(CheckStop::refused(Rule::Mismatch, span));
    }
    Ok(value)
}

fn is_number(types: &Types<'_>, value: &Expr) -> bool
    requires { HasFittingNumbers (values.plain_of value.now) }
    ensures { result ≡ is_number (shown_types types.now) (values.plain_of value.now) }
{
    match value.type_in(types) {
        Some(ValueType::Number) => true,
        Some(ValueType::Rec(_)) => false,
        Some(ValueType::Table) => false,
        None => false,
    }
}
