//! Expressions whose names are resolved.
ghost use Rattle.std.specs.Prelude.{◌≡◌, IfOk, IfSome, length, option_map};
ghost use Rattle.few_parts.specs.Sizes.{IsRecordSize};
ghost use Rattle.query_syntax.specs.Plain.{plain_expression, plain_expressions};
ghost use Rattle.query_resolver.specs.Expressions.{both_of, choice_of, expression_over};
ghost use Rattle.query_resolver.specs.Expressions.{expressions_over, extremum_of, named_in};
ghost use Rattle.query_resolver.specs.Expressions.{table_form};
ghost use Rattle.query_resolver.specs.Scopes.{HasFittingNumbers, HaveFittingNumbers, plain_scope};
ghost use Rattle.expressions.specs.Expressions.{binary, choice, entry, plain_of, plain_parts, rec};
ghost use Rattle.expressions.specs.Expressions.{unary};

use crate::expression_names::{extremum_with, named_in, part_over, read_over, summary_over};
use expressions::{Expr, Exprs};
use item_schema::Schema;
use query_syntax::{BinaryOp, Comparison, Expression, Extremum, Name, Text, UnaryOp};
use std::alloc::{AllocError, Global};

/// What the names of an expression stand for.
#[derive(Clone, Copy)]
pub enum Scope<'s> {
    /// The columns of an item.
    Item(&'s Schema),
    /// One value, `x`.
    One,
    /// Two values, `x` and `y`.
    Two,
}

// Two expressions, each in memory of its own.
#[derive(Drop)]
struct Both {
    left: Box<Expr>,
    right: Box<Expr>,
}

/// The expression with each name resolved. There is none if a name is not known in the scope.
#[cycle(resolve)]
pub fn expression_over(
    alloc: Global,
    scope: Scope<'_>,
    expression: &Expression,
) -> Result<Option<Expr>, AllocError>
    ensures made { IfOk result (λ found. option_map plain_of found
        ≡ expression_over (plain_scope scope.entry) (plain_expression expression.now)) }
    ensures numbers { IfOk result (λ found.
        IfSome found (λ made. HasFittingNumbers (plain_of made))) }
{
    match expression {
        Expression::Number(number) => Ok(Some(Expr::Literal(number.value))),
        Expression::Name(name) => Ok(read_over(scope, name)),
        Expression::Unary {
            operator,
            operand,
            ..
        } => unary_over(alloc, scope, *operator, operand),
        Expression::Binary {
            operator,
            left,
            right,
            ..
        } => binary_over(alloc, scope, *operator, left, right),
        Expression::If {
            test,
            holds,
            fails,
            ..
        } => choice_over(alloc, scope, test, holds, fails),
        Expression::Summary { summary, table, .. } => Ok(summary_over(scope, *summary, table)),
        Expression::Extremum {
            extremum,
            table,
            first,
            ..
        } => extremum_over(alloc, scope, *extremum, table, first),
        Expression::Get {
            table,
            key,
            absent,
            ..
        } => entry_over(alloc, scope, table, key, absent),
        Expression::Record { parts, .. } => record_over(alloc, scope, parts.as_slice()),
        Expression::Part { whole, index, .. } => Ok(part_over(scope, whole, *index)),
    }
}

#[cycle(resolve)]
fn boxed_over(
    alloc: Global,
    scope: Scope<'_>,
    expression: &Expression,
) -> Result<Option<Box<Expr>>, AllocError>
    ensures made { IfOk result (λ found. option_map (λ made. plain_of made.value) found
        ≡ expression_over (plain_scope scope.entry) (plain_expression expression.now)) }
    ensures numbers { IfOk result (λ found.
        IfSome found (λ made. HasFittingNumbers (plain_of made.value))) }
{
    match expression_over(alloc, scope, expression)? {
        Some(made) => Ok(Some(Box::new(alloc, made)?)),
        None => Ok(None),
    }
}

#[cycle(resolve)]
fn unary_over(
    alloc: Global,
    scope: Scope<'_>,
    operator: UnaryOp,
    operand: &Expression,
) -> Result<Option<Expr>, AllocError>
    ensures made { IfOk result (λ found. option_map plain_of found
        ≡ option_map (unary operator)
        (expression_over (plain_scope scope.entry) (plain_expression operand.now))) }
    ensures numbers { IfOk result (λ found.
        IfSome found (λ made. HasFittingNumbers (plain_of made))) }
{
    match boxed_over(alloc, scope, operand)? {
        Some(inner) => Ok(Some(Expr::Unary(operator, inner))),
        None => Ok(None),
    }
}

#[cycle(resolve)]
fn binary_over(
    alloc: Global,
    scope: Scope<'_>,
    operator: BinaryOp,
    left: &Expression,
    right: &Expression,
) -> Result<Option<Expr>, AllocError>
    ensures made { IfOk result (λ found. option_map plain_of found
        ≡ both_of (binary operator)
        (expression_over (plain_scope scope.entry) (plain_expression left.now))
        (expression_over (plain_scope scope.entry) (plain_expression right.now))) }
    ensures numbers { IfOk result (λ found.
        IfSome found (λ made. HasFittingNumbers (plain_of made))) }
{
    match both_over(alloc, scope, left, right)? {
        Some(both) => Ok(Some(Expr::Binary(operator, both.left, both.right))),
        None => Ok(None),
    }
}

// Both expressions, if each name in them is known.
#[cycle(resolve)]
fn both_over(
    alloc: Global,
    scope: Scope<'_>,
    left: &Expression,
    right: &Expression,
) -> Result<Option<Both>, AllocError>
    ensures made { IfOk result (λ found. (node : _)
        → option_map (λ both. node (plain_of both.left.value) (plain_of both.right.value)) found
        ≡ both_of node (expression_over (plain_scope scope.entry) (plain_expression left.now))
        (expression_over (plain_scope scope.entry) (plain_expression right.now))) }
    ensures left { IfOk result (λ found.
        IfSome found (λ both. HasFittingNumbers (plain_of both.left.value))) }
    ensures right { IfOk result (λ found.
        IfSome found (λ both. HasFittingNumbers (plain_of both.right.value))) }
{
    let Some(left) = boxed_over(alloc, scope, left)? else {
        return Ok(None);
    };
    let Some(right) = boxed_over(alloc, scope, right)? else {
        return Ok(None);
    };
    Ok(Some(Both { left, right }))
}

#[cycle(resolve)]
fn choice_over(
    alloc: Global,
    scope: Scope<'_>,
    test: &Comparison,
    holds: &Expression,
    fails: &Expression,
) -> Result<Option<Expr>, AllocError>
    ensures made { IfOk result (λ found. option_map plain_of found
        ≡ choice_of (choice test.now.compare)
        (expression_over (plain_scope scope.entry) (plain_expression test.now.left.value))
        (expression_over (plain_scope scope.entry) (plain_expression test.now.right.value))
        (expression_over (plain_scope scope.entry) (plain_expression holds.now))
        (expression_over (plain_scope scope.entry) (plain_expression fails.now))) }
    ensures numbers { IfOk result (λ found.
        IfSome found (λ made. HasFittingNumbers (plain_of made))) }
{
    let Some(sides) = both_over(alloc, scope, &test.left, &test.right)? else {
        return Ok(None);
    };
    let Some(branches) = both_over(alloc, scope, holds, fails)? else {
        return Ok(None);
    };
    Ok(Some(Expr::If(
        test.compare,
        sides.left,
        sides.right,
        branches.left,
        branches.right,
    )))
}

#[cycle(resolve)]
fn extremum_over(
    alloc: Global,
    scope: Scope<'_>,
    extremum: Extremum,
    table: &Name,
    first: &Expression,
) -> Result<Option<Expr>, AllocError>
    ensures made { IfOk result (λ found. option_map plain_of found
        ≡ table_form (extremum_of extremum) (named_in (plain_scope scope.entry) table.now.bytes)
        (expression_over (plain_scope scope.entry) (plain_expression first.now))) }
    ensures numbers { IfOk result (λ found.
        IfSome found (λ made. HasFittingNumbers (plain_of made))) }
{
    let Some(table) = named_in(scope, table.bytes.as_slice()) else {
        return Ok(None);
    };
    match boxed_over(alloc, scope, first)? {
        Some(first) => Ok(Some(extremum_with(extremum, table, first))),
        None => Ok(None),
    }
}

#[cycle(resolve)]
fn entry_over(
    alloc: Global,
    scope: Scope<'_>,
    table: &Name,
    key: &Text,
    absent: &Expression,
) -> Result<Option<Expr>, AllocError>
    ensures made { IfOk result (λ found. option_map plain_of found
        ≡ table_form (λ name other. entry name key.now.bytes other)
        (named_in (plain_scope scope.entry) table.now.bytes)
        (expression_over (plain_scope scope.entry) (plain_expression absent.now))) }
    ensures numbers { IfOk result (λ found.
        IfSome found (λ made. HasFittingNumbers (plain_of made))) }
{
    let Some(table) = named_in(scope, table.bytes.as_slice()) else {
        return Ok(None);
    };
    let Some(absent) = boxed_over(alloc, scope, absent)? else {
        return Ok(None);
    };
    let key = key.bytes.try_copy(alloc)?;
    Ok(Some(Expr::Get(table, key, absent)))
}

#[cycle(resolve)]
fn record_over(
    alloc: Global,
    scope: Scope<'_>,
    parts: &[Expression],
) -> Result<Option<Expr>, AllocError>
    requires { IsRecordSize (length parts.now) }
    ensures made { IfOk result (λ found. option_map plain_of found
        ≡ option_map rec (expressions_over (plain_scope scope.entry)
        (plain_expressions parts.now))) }
    ensures numbers { IfOk result (λ found.
        IfSome found (λ made. HasFittingNumbers (plain_of made))) }
{
    match all_over(alloc, scope, parts)? {
        Some(made) => Ok(Some(Expr::Rec(Exprs::of(made)))),
        None => Ok(None),
    }
}

// All expressions, if each name in them is known.
#[cycle(resolve)]
fn all_over(
    alloc: Global,
    scope: Scope<'_>,
    parts: &[Expression],
) -> Result<Option<Vec<Expr>>, AllocError>
    ensures made { IfOk result (λ found. option_map (λ made. plain_parts made.items) found
        ≡ expressions_over (plain_scope scope.entry) (plain_expressions parts.now)) }
    ensures as_many { IfOk result (λ found.
        IfSome found (λ made. length made.items ≡ length parts.now)) }
    ensures numbers { IfOk result (λ found.
        IfSome found (λ made. HaveFittingNumbers (plain_parts made.items))) }
{
    let mut made = Vec::with_capacity(alloc, parts.len())?;
    'parts: for part in parts {
        let Some(one) = expression_over(alloc, scope, part)? else {
            return Ok(None);
        };
        made.push(one)?;
    }
    Ok(Some(made))
}
