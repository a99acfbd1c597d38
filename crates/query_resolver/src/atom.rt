//! Atoms whose names are resolved and whose types fit.
ghost use Rattle.std.specs.Prelude.{◌≡◌, true, IfErr, IfOk, OnOk, Some};
ghost use Rattle.language_base.specs.declared.rule.Rule.TheVariants.{Name};
ghost use Rattle.predicates.specs.Fits.{fits};
ghost use Rattle.predicates.specs.Plain as predicates;
ghost use Rattle.query_model.specs.QueryTypes.{of_columns};
ghost use Rattle.query_syntax.specs.Expressions as e;
ghost use Rattle.query_syntax.specs.Plain.{plain_expression, plain_predicate};
ghost use Rattle.query_syntax.specs.Predicates as p;
ghost use Rattle.query_syntax.specs.Queries as q;
ghost use Rattle.query_resolver.specs.Expressions.{expression_over, of_item};
ghost use Rattle.query_resolver.specs.Findings.{IsUnresolved};
ghost use Rattle.query_resolver.specs.Resolutions.{HasTypes, IsMade, IsNamedAtom, IsRefused};
ghost use Rattle.query_resolver.specs.Resolutions.{columns_of};
ghost use Rattle.query_resolver.specs.Resolved.{Nesting};
ghost use Rattle.query_resolver.specs.Scopes.{HasFittingNumbers};
ghost use Rattle.query_resolver.specs.Steps.{found};
ghost use Rattle.expressions.specs.Expressions as values;
ghost use Rattle.expressions.specs.Typing.{HasType};

use crate::CheckStop;
use crate::expression::{Scope, expression_over};
use crate::predicate::named_pred;
use crate::query_types::Typed;
use crate::shapes::Items;
use expressions::{Expr, Types};
use item_schema::Schema;
use language_base::{Rule, Span};
use predicates::Pred;
use query_model::Shape;
use query_syntax::{Expression, Predicate};
use std::alloc::Global;
use value_ops::ValueType;

/// One item that meets the predicate.
pub fn atom(
    alloc: Global,
    items: &Items<'_>,
    predicate: &Predicate,
    value: &Expression,
    span: Span,
) -> Result<Typed, CheckStop>
    requires { HasTypes items.now }
    ensures made { IfOk result (λ made. (nesting : Nesting) → IsMade nesting (columns_of items.now)
        (q.atom (plain_predicate predicate.now) (plain_expression value.now) span) made) }
    ensures refused { IfErr result (λ stop. (nesting : Nesting)
        → IsRefused nesting (columns_of items.now)
        (q.atom (plain_predicate predicate.now) (plain_expression value.now) span) stop) }
{
    let (pred, value, ty) = typed_atom(alloc, items, predicate, value, span)?;
    Ok(Typed::new(alloc, Shape::Atom(pred, value), span, ty)?)
}

// The predicate, the value and its type, if names are resolved and types fit.
fn typed_atom(
    alloc: Global,
    items: &Items<'_>,
    predicate: &Predicate,
    value: &Expression,
    span: Span,
) -> Result<(Pred, Expr, ValueType), CheckStop>
    requires { HasTypes items.now }
    ensures named { IfOk result (λ made. IsNamedAtom (columns_of items.now)
        (plain_predicate predicate.now) (plain_expression value.now)
        (predicates.plain_of made.0) (values.plain_of made.1)) }
    ensures fits { IfOk result (λ made.
        fits (columns_of items.now) (predicates.plain_of made.0) ≡ true) }
    ensures typed { IfOk result (λ made.
        HasType (of_columns (columns_of items.now)) (values.plain_of made.1) made.2) }
    ensures refused { IfErr result (λ stop. (nesting : Nesting)
        → IsRefused nesting (columns_of items.now)
        (q.atom (plain_predicate predicate.now) (plain_expression value.now) span) stop) }
{
    let (pred, value) = named_atom(alloc, items.schema, predicate, value, span)?;
    match type_of_atom(items, &pred, &value, span) {
        Ok(ty) => Ok((pred, value, ty)),
        Err(stop) => {
            drop(pred);
            drop(value);
            Err(stop)
        }
    }
}

// The predicate and the value of an atom, whose names are resolved.
fn named_atom(
    alloc: Global,
    schema: &Schema,
    predicate: &Predicate,
    value: &Expression,
    span: Span,
) -> Result<(Pred, Expr), CheckStop>
    ensures made { IfOk result (λ made. IsNamedAtom schema.now.columns
        (plain_predicate predicate.now) (plain_expression value.now)
        (predicates.plain_of made.0) (values.plain_of made.1)) }
    ensures refused { IfErr result (λ stop. (nesting : Nesting)
        → IsRefused nesting schema.now.columns
        (q.atom (plain_predicate predicate.now) (plain_expression value.now) span) stop) }
{
    let pred = named_pred(alloc, schema, predicate, span)?;
    let value = named_value(alloc, schema, value, span)?;
    Ok((pred, value))
}

fn named_value(
    alloc: Global,
    schema: &Schema,
    value: &Expression,
    span: Span,
) -> Result<Expr, CheckStop>
    ensures made { IfOk result (λ made. Some (values.plain_of made)
        ≡ expression_over (of_item schema.now.columns) (plain_expression value.now)) }
    ensures numbers { IfOk result (λ made. HasFittingNumbers (values.plain_of made)) }
    ensures refused { IfErr result (IsUnresolved (found Name span
        (expression_over (of_item schema.now.columns) (plain_expression value.now)))) }
{
    let found = expression_over(alloc, Scope::Item(schema), value)?;
    match found {
        Some(value) => Ok(value),
        None => Err(CheckStop::refused(Rule::Name, span)),
    }
}

// The type of the values of an atom whose names are resolved, if its types fit.
fn type_of_atom(
    items: &Items<'_>,
    pred: &Pred,
    value: &Expr,
    span: Span,
) -> Result<ValueType, CheckStop>
    requires { HasTypes items.now }
    ensures fits { OnOk result
        (fits (columns_of items.now) (predicates.plain_of pred.now) ≡ true) }
    ensures typed { IfOk result
        (HasType (of_columns (columns_of items.now)) (values.plain_of value.now)) }
    ensures refused { IfErr result (λ stop. (nesting : Nesting) (test : p.Predicate)
        (tree : e.Expression) → IsNamedAtom (columns_of items.now) test tree
        (predicates.plain_of pred.now) (values.plain_of value.now)
        → IsRefused nesting (columns_of items.now) (q.atom test tree span) stop) }
{
    if !pred.fits(items.schema) {
        return Err(CheckStop::refused(Rule::Mismatch, span));
    }
    let types = Types {
        fields: items.types,
        left: None,
        right: None,
    };
    match value.type_in(&types) {
        Some(ty) => Ok(ty),
        None => Err(CheckStop::refused(Rule::Mismatch, span)),
    }
}
