//! The first name of a key by which it breaks the rule `name` or the rule `type`.
ghost use Rattle.std.specs.Prelude.{◌≡◌};
ghost use Rattle.explanation.specs.KeyNames.{again_in, misfit_name, named_twice, unknown_of};
ghost use Rattle.explanation.specs.Scopes.{plain_scope};

use crate::culprit::Culprit;
use crate::misfit::unless_key;
use crate::scope::{Scope, unless_known};
use query_syntax::{Column, Name};

/// The first that is not known in the scope.
pub(crate) fn unknown_of(scope: Scope<'_>, names: &[Name]) -> Option<Culprit>
    ensures { result ≡ unknown_of (plain_scope scope.entry) names.now }
{
    match names {
        [name, others @ ..] => unless_known(scope, name).or(unknown_of(scope, others)),
        [] => None,
    }
}

/// The first that stands again, at its second place.
pub(crate) fn named_twice(names: &[Name]) -> Option<Culprit>
    ensures { result ≡ named_twice names.now }
{
    match names {
        [name, others @ ..] => again_in(name, others).or(named_twice(others)),
        [] => None,
    }
}

fn again_in(name: &Name, others: &[Name]) -> Option<Culprit>
    ensures { result ≡ again_in name.now others.now }
{
    match others {
        [other, rest @ ..] => {
            if name.bytes.as_slice() == other.bytes.as_slice() {
                Some(Culprit::TwiceKey(other.span))
            } else {
                again_in(name, rest)
            }
        }
        [] => None,
    }
}

/// The first that is the name of a column of numbers.
pub(crate) fn misfit_name(columns: &[Column], names: &[Name]) -> Option<Culprit>
    ensures { result ≡ misfit_name columns.now names.now }
{
    match names {
        [name, others @ ..] => unless_key(columns, name).or(misfit_name(columns, others)),
        [] => None,
    }
}
