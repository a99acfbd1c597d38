//! Predicates over the columns of a stream.
ghost use Rattle.std.specs.Prelude.{◌≡◌, IfErr, IfOk, Some, option_map};
ghost use Rattle.language_base.specs.declared.rule.Rule.TheVariants.{Name};
ghost use Rattle.predicates.specs.Plain.{plain_of};
ghost use Rattle.predicates.specs.Predicates.{negation};
ghost use Rattle.query_syntax.specs.Plain.{plain_predicate};
ghost use Rattle.query_resolver.specs.Findings.{IsUnresolved};
ghost use Rattle.query_resolver.specs.Names.{column_named};
ghost use Rattle.query_resolver.specs.Steps.{found};
ghost use Rattle.query_resolver.specs.Tests.{both, equality_test, joined_by, order_test};
ghost use Rattle.query_resolver.specs.Tests.{resolved_over};

use crate::CheckStop;
use crate::columns::column_named;
use item_schema::Schema;
use language_base::{Rule, Span};
use predicates::Pred;
use query_syntax::{Connective, Equality, Literal, Order, Predicate};
use std::alloc::{AllocError, Global};

/// The predicate over the columns of the schema, if each name in it is a column's.
#[cycle(resolve)]
pub fn pred_over(
    alloc: Global,
    schema: &Schema,
    predicate: &Predicate,
) -> Result<Option<Pred>, AllocError>
    ensures { IfOk result (λ found. option_map plain_of found
        ≡ resolved_over schema.now.columns (plain_predicate predicate.now)) }
{
    match predicate {
        Predicate::Any(_) => Ok(Some(Pred::Any)),
        Predicate::Equality {
            equality,
            column,
            literal,
            ..
        } => equality_over(alloc, schema, *equality, column, literal),
        Predicate::Order {
            order,
            column,
            bound,
            ..
        } => match column_named(schema, column.bytes.as_slice()) {
            Some(column) => Ok(Some(order_test(*order, bound.value, column))),
            None => Ok(None),
        },
        Predicate::Between {
            column,
            low,
            high,
            ..
        } => match column_named(schema, column.bytes.as_slice()) {
            Some(column) => Ok(Some(Pred::Between(column, low.value, high.value))),
            None => Ok(None),
        },
        Predicate::IsNum { column, .. } => match column_named(schema, column.bytes.as_slice()) {
            Some(column) => Ok(Some(Pred::IsNum(column))),
            None => Ok(None),
        },
        Predicate::Joined {
            connective,
            left,
            right,
            ..
        } => joined_over(alloc, schema, *connective, left, right),
        Predicate::Not { operand, .. } => negated_over(alloc, schema, operand),
    }
}

/// The same for a node at the place, where an unknown name is refused.
pub fn named_pred(
    alloc: Global,
    schema: &Schema,
    predicate: &Predicate,
    span: Span,
) -> Result<Pred, CheckStop>
    ensures made { IfOk result (λ made. Some (plain_of made)
        ≡ resolved_over schema.now.columns (plain_predicate predicate.now)) }
    ensures refused { IfErr result (IsUnresolved
        (found Name span (resolved_over schema.now.columns (plain_predicate predicate.now)))) }
{
    let found = pred_over(alloc, schema, predicate)?;
    match found {
        Some(pred) => Ok(pred),
        None => Err(CheckStop::refused(Rule::Name, span)),
    }
}

#[cycle(resolve)]
fn boxed_over(
    alloc: Global,
    schema: &Schema,
    predicate: &Predicate,
) -> Result<Option<Box<Pred>>, AllocError>
    ensures { IfOk result (λ found. option_map (λ pred. plain_of pred.value) found
        ≡ resolved_over schema.now.columns (plain_predicate predicate.now)) }
{
    match pred_over(alloc, schema, predicate)? {
        Some(pred) => Ok(Some(Box::new(alloc, pred)?)),
        None => Ok(None),
    }
}

#[cycle(resolve)]
fn joined_over(
    alloc: Global,
    schema: &Schema,
    connective: Connective,
    left: &Predicate,
    right: &Predicate,
) -> Result<Option<Pred>, AllocError>
    ensures { IfOk result (λ found. option_map plain_of found
        ≡ both connective (resolved_over schema.now.columns (plain_predicate left.now))
        (resolved_over schema.now.columns (plain_predicate right.now))) }
{
    let Some(left) = boxed_over(alloc, schema, left)? else {
        return Ok(None);
    };
    let Some(right) = boxed_over(alloc, schema, right)? else {
        return Ok(None);
    };
    Ok(Some(joined_by(connective, left, right)))
}

#[cycle(resolve)]
fn negated_over(
    alloc: Global,
    schema: &Schema,
    operand: &Predicate,
) -> Result<Option<Pred>, AllocError>
    ensures { IfOk result (λ found. option_map plain_of found
        ≡ option_map negation (resolved_over schema.now.columns (plain_predicate operand.now))) }
{
    match boxed_over(alloc, schema, operand)? {
        Some(inner) => Ok(Some(Pred::Not(inner))),
        None => Ok(None),
    }
}

fn equality_over(
    alloc: Global,
    schema: &Schema,
    equality: Equality,
    column: &query_syntax::Name,
    literal: &Literal,
) -> Result<Option<Pred>, AllocError>
    ensures { IfOk result (λ found. option_map plain_of found
        ≡ option_map (equality_test equality literal.now)
        (column_named schema.now.columns column.now.bytes)) }
{
    match column_named(schema, column.bytes.as_slice()) {
        Some(column) => Ok(Some(equality_test(alloc, equality, literal, column)?)),
        None => Ok(None),
    }
}

fn equality_test(
    alloc: Global,
    equality: Equality,
    literal: &Literal,
    column: u32,
) -> Result<Pred, AllocError>
    ensures { IfOk result (λ test. plain_of test ≡ equality_test equality literal.now column) }
{
    match literal {
        Literal::Number(number) => match equality {
            Equality::Eq => Ok(Pred::Eq(column, number.value)),
            Equality::Ne => Ok(Pred::Ne(column, number.value)),
        },
        Literal::Text(text) => {
            let text = text.bytes.try_copy(alloc)?;
            match equality {
                Equality::Eq => Ok(Pred::EqText(column, text)),
                Equality::Ne => Ok(Pred::NeText(column, text)),
            }
        }
    }
}

fn order_test(order: Order, bound: i64, column: u32) -> Pred
    ensures { plain_of result ≡ order_test order bound column }
{
    match order {
        Order::Lt => Pred::Lt(column, bound),
        Order::Le => Pred::Le(column, bound),
        Order::Gt => Pred::Gt(column, bound),
        Order::Ge => Pred::Ge(column, bound),
    }
}

fn joined_by(connective: Connective, left: Box<Pred>, right: Box<Pred>) -> Pred
    ensures { plain_of result ≡ joined_by connective (plain_of left.value) (plain_of right.value) }
{
    match connective {
        Connective::And => Pred::And(left, right),
        Connective::Or => Pred::Or(left, right),
    }
}
