//! Which names are known at a node.
ghost use Rattle.std.specs.List.{list_any};
ghost use Rattle.std.specs.Prelude.{◌≡◌};
ghost use Rattle.std.specs.Str.{bytes_eq};
ghost use Rattle.explanation.specs.Scopes.{has_name, is_known, is_of_values, plain_scope};
ghost use Rattle.explanation.specs.Scopes.{unknown_in, unless_known};

use crate::culprit::Culprit;
use language_base::Span;
use query_syntax::{Column, Name};

/// What names stand for.
#[derive(Clone, Copy)]
pub(crate) enum Scope<'s> {
    /// The columns of an item.
    Item(&'s [Column]),
    /// The columns of a stream of values: `value`, or `value1`, `value2` and so on for records.
    Value,
    /// The same columns, of which one is not those of these values.
    Misread,
    /// The same columns, where values of another kind are needed.
    Mistyped,
    /// One value, `x`.
    One,
    /// Two values, `x` and `y`.
    Two,
}

pub(crate) fn unless_known(scope: Scope<'_>, name: &Name) -> Option<Culprit>
    ensures { result ≡ unless_known (plain_scope scope.entry) name.now }
{
    if is_known(scope, name.bytes.as_slice()) {
        None
    } else {
        Some(unknown_in(scope, name.span))
    }
}

fn is_known(scope: Scope<'_>, name: &[u8]) -> bool
    ensures { result ≡ is_known (plain_scope scope.entry) name.now }
{
    match scope {
        Scope::Item(columns) => has_name(columns, name),
        Scope::Value => is_of_values(name),
        Scope::Misread | Scope::Mistyped => false,
        Scope::One => name == b"x".as_slice(),
        Scope::Two => name == b"x".as_slice() || name == b"y".as_slice(),
    }
}

// The names that columns of values may have.
const VALUE_NAMES: [&[u8]; 9] = [
    b"value", b"value1", b"value2", b"value3", b"value4", b"value5", b"value6", b"value7",
    b"value8",
];

fn is_of_values(name: &[u8]) -> bool
    ensures { result ≡ is_of_values name.now }
{
    is_one_of(&VALUE_NAMES, name)
}

fn is_one_of(names: &[&[u8]], name: &[u8]) -> bool
    ensures { result ≡ list_any (λ known. bytes_eq name.now known.now) names.now }
{
    names.iter().any(|known| name == *known)
}

pub(crate) fn has_name(columns: &[Column], name: &[u8]) -> bool
    ensures { result ≡ has_name columns.now name.now }
{
    columns
        .iter()
        .any(|column| name == column.name.bytes.as_slice())
}

fn unknown_in(scope: Scope<'_>, span: Span) -> Culprit
    ensures { result ≡ unknown_in (plain_scope scope.entry) span }
{
    match scope {
        Scope::Item(_) => Culprit::NoColumn(span),
        Scope::Value => Culprit::NoValue(span),
        Scope::Misread => Culprit::OtherValue(span),
        Scope::Mistyped => Culprit::OfValue(span),
        Scope::One => Culprit::NotOne(span),
        Scope::Two => Culprit::NotTwo(span),
    }
}
