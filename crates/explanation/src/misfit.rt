//! The first column of an atom or a collection whose kind does not fit where it is used.
ghost use Rattle.std.specs.Prelude.{◌≡◌};
ghost use Rattle.query_syntax.specs.Plain.{plain_expression, plain_expressions, plain_predicate};
ghost use Rattle.query_syntax.specs.Plain.{plain_rate};
ghost use Rattle.explanation.specs.Misfits.{has_numbers, has_texts, is_text, misfit_item};
ghost use Rattle.explanation.specs.Misfits.{misfit_part, misfit_read, misfit_test, misfit_with};
ghost use Rattle.explanation.specs.Misfits.{unless_key, unless_number, unless_record, unless_table};
ghost use Rattle.explanation.specs.Misfits.{unless_text};

use crate::culprit::Culprit;
use crate::scope::has_name;
use query_syntax::{Column, Expression, Kind, Literal, Name, Predicate, Rate};

/// The first column in a predicate that is compared with a literal of the other kind.
pub(crate) fn misfit_test(columns: &[Column], predicate: &Predicate) -> Option<Culprit>
    ensures { result ≡ misfit_test columns.now (plain_predicate predicate.now) }
{
    match predicate {
        Predicate::Any(_) => None,
        Predicate::Equality {
            column,
            literal,
            ..
        } => misfit_with(columns, column, literal),
        Predicate::Order { column, .. }
        | Predicate::Between { column, .. }
        | Predicate::IsNum { column, .. } => unless_number(columns, column),
        Predicate::Joined { left, right, .. } => {
            misfit_test(columns, left).or(misfit_test(columns, right))
        }
        Predicate::Not { operand, .. } => misfit_test(columns, operand),
    }
}

/// The same in a rate.
pub(crate) fn misfit_item(columns: &[Column], rate: &Rate) -> Option<Culprit>
    ensures { result ≡ misfit_item columns.now (plain_rate rate.now) }
{
    match rate {
        Rate::Eps(_) => None,
        Rate::Item { predicate, .. } => misfit_test(columns, predicate),
        Rate::Joined { left, right, .. } => {
            misfit_item(columns, left).or(misfit_item(columns, right))
        }
        Rate::Star { operand, .. } => misfit_item(columns, operand),
    }
}

/// The first column in an expression that is not of the kind that is needed there.
#[cycle(misfit)]
pub(crate) fn misfit_read(columns: &[Column], expression: &Expression) -> Option<Culprit>
    ensures { result ≡ misfit_read columns.now (plain_expression expression.now) }
{
    match expression {
        Expression::Number(_) => None,
        Expression::Name(name) => unless_number(columns, name),
        Expression::Unary { operand, .. } => misfit_read(columns, operand),
        Expression::Binary { left, right, .. } => {
            misfit_read(columns, left).or(misfit_read(columns, right))
        }
        Expression::If {
            test,
            holds,
            fails,
            ..
        } => {
            let compared = misfit_read(columns, &test.left).or(misfit_read(columns, &test.right));
            compared.or(misfit_read(columns, holds).or(misfit_read(columns, fails)))
        }
        Expression::Summary { table, .. }
        | Expression::Extremum { table, .. }
        | Expression::Get { table, .. } => unless_table(columns, table),
        Expression::Record { parts, .. } => misfit_part(columns, parts.as_slice()),
        Expression::Part { whole, .. } => unless_record(columns, whole),
    }
}

// The same in the parts of a record.
#[cycle(misfit)]
fn misfit_part(columns: &[Column], parts: &[Expression]) -> Option<Culprit>
    ensures { result ≡ misfit_part columns.now (plain_expressions parts.now) }
{
    'parts: for part in parts {
        if let Some(culprit) = misfit_read(columns, part) {
            return Some(culprit);
        }
    }
    None
}

fn misfit_with(columns: &[Column], column: &Name, literal: &Literal) -> Option<Culprit>
    ensures { result ≡ misfit_with columns.now column.now literal.now }
{
    match literal {
        Literal::Number(_) => unless_number(columns, column),
        Literal::Text(_) => unless_text(columns, column),
    }
}

fn unless_number(columns: &[Column], name: &Name) -> Option<Culprit>
    ensures { result ≡ unless_number columns.now name.now }
{
    has_texts(columns, name.bytes.as_slice()).then_some(Culprit::Texts(name.span))
}

fn unless_text(columns: &[Column], name: &Name) -> Option<Culprit>
    ensures { result ≡ unless_text columns.now name.now }
{
    has_numbers(columns, name.bytes.as_slice()).then_some(Culprit::Numbers(name.span))
}

// No column has tables.
fn unless_table(columns: &[Column], name: &Name) -> Option<Culprit>
    ensures { result ≡ unless_table columns.now name.now }
{
    has_name(columns, name.bytes.as_slice()).then_some(Culprit::NoTable(name.span))
}

// No column has records.
fn unless_record(columns: &[Column], name: &Name) -> Option<Culprit>
    ensures { result ≡ unless_record columns.now name.now }
{
    has_name(columns, name.bytes.as_slice()).then_some(Culprit::NoRecord(name.span))
}

/// The name of a key column, if that has numbers.
pub(crate) fn unless_key(columns: &[Column], name: &Name) -> Option<Culprit>
    ensures { result ≡ unless_key columns.now name.now }
{
    has_numbers(columns, name.bytes.as_slice()).then_some(Culprit::Key(name.span))
}

fn has_texts(columns: &[Column], name: &[u8]) -> bool
    ensures { result ≡ has_texts columns.now name.now }
{
    columns.iter().any(|column| name == column.name.bytes.as_slice() && is_text(column.kind))
}

fn has_numbers(columns: &[Column], name: &[u8]) -> bool
    ensures { result ≡ has_numbers columns.now name.now }
{
    columns.iter().any(|column| name == column.name.bytes.as_slice() && !is_text(column.kind))
}

fn is_text(kind: Kind) -> bool
    ensures { result ≡ is_text kind }
{
    match kind {
        Kind::Text(_) => true,
        Kind::Int(_) | Kind::Fixed { .. } => false,
    }
}
