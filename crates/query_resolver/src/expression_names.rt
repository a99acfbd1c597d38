//! Names in expressions, and the expressions that are made of the name of a table or a record.
ghost use Rattle.std.specs.Prelude.{◌≡◌, IfSome, option_map};
ghost use Rattle.query_resolver.specs.Expressions.{extremum_of, named_in, summary_of};
ghost use Rattle.query_resolver.specs.Scopes.{HasFittingNumbers, plain_scope};
ghost use Rattle.expressions.specs.Expressions.{part, plain_of, read};

use crate::columns::column_named;
use crate::expression::Scope;
use expressions::{Expr, Var};
use query_syntax::{Extremum, Index, Name, Summary};

/// The name itself, read.
pub fn read_over(scope: Scope<'_>, name: &Name) -> Option<Expr>
    ensures made { option_map plain_of result
        ≡ option_map read (named_in (plain_scope scope.entry) name.now.bytes) }
    ensures numbers { IfSome result (λ made. HasFittingNumbers (plain_of made)) }
{
    match named_in(scope, name.bytes.as_slice()) {
        Some(name) => Some(Expr::Read(name)),
        None => None,
    }
}

/// The sum or the count of the named table.
pub fn summary_over(scope: Scope<'_>, summary: Summary, table: &Name) -> Option<Expr>
    ensures made { option_map plain_of result
        ≡ option_map (summary_of summary) (named_in (plain_scope scope.entry) table.now.bytes) }
    ensures numbers { IfSome result (λ made. HasFittingNumbers (plain_of made)) }
{
    match named_in(scope, table.bytes.as_slice()) {
        Some(table) => Some(summary_of(summary, table)),
        None => None,
    }
}

/// The part at a place of the named record.
pub fn part_over(scope: Scope<'_>, whole: &Name, index: Index) -> Option<Expr>
    ensures made { option_map plain_of result ≡ option_map (λ name. part name index.value)
        (named_in (plain_scope scope.entry) whole.now.bytes) }
    ensures numbers { IfSome result (λ made. HasFittingNumbers (plain_of made)) }
{
    match named_in(scope, whole.bytes.as_slice()) {
        Some(whole) => Some(Expr::Part(whole, u32::from(index.value))),
        None => None,
    }
}

/// What the name stands for.
pub fn named_in(scope: Scope<'_>, name: &[u8]) -> Option<Var>
    ensures { result ≡ named_in (plain_scope scope.entry) name.now }
{
    match scope {
        Scope::Item(schema) => match column_named(schema, name) {
            Some(column) => Some(Var::Field(column)),
            None => None,
        },
        Scope::One => {
            if name == b"x".as_slice() {
                Some(Var::Left)
            } else {
                None
            }
        }
        Scope::Two => {
            if name == b"x".as_slice() {
                Some(Var::Left)
            } else if name == b"y".as_slice() {
                Some(Var::Right)
            } else {
                None
            }
        }
    }
}

fn summary_of(summary: Summary, table: Var) -> Expr
    ensures made { plain_of result ≡ summary_of summary table }
    ensures numbers { HasFittingNumbers (plain_of result) }
{
    match summary {
        Summary::Sum => Expr::Sum(table),
        Summary::Count => Expr::Count(table),
    }
}

/// The greatest or the least number in a table and the first number that is given.
pub fn extremum_with(extremum: Extremum, table: Var, first: Box<Expr>) -> Expr
    ensures made { plain_of result ≡ extremum_of extremum table (plain_of first.value) }
    ensures numbers { HasFittingNumbers (plain_of first.value)
        → HasFittingNumbers (plain_of result) }
{
    match extremum {
        Extremum::Max => Expr::Most(table, first),
        Extremum::Min => Expr::Least(table, first),
    }
}
