//! The columns of a collect's key.
ghost use Rattle.std.specs.Prelude.{◌≡◌, length};
ghost use Rattle.query_syntax.specs.Counts.{IsNameCount};

use crate::Name;
use language_base::Span;
use std::marker::Model;
use std::slice;

/// What makes the key of an item.
#[derive(Drop)]
pub enum Key {
    /// The text in one column.
    Column(Name),
    /// The texts in several columns.
    Columns(KeyNames, Span),
}

impl Key {
    ghost use Rattle.std.specs.Prelude.{◌≤◌};
    ghost use Rattle.query_syntax.specs.Keys.{names_of};

    /// The names of the columns, in the order in which they are written.
    pub fn names(&self) -> &[Name]
        ensures names { result.now ≡ names_of self.now }
        ensures least { 1 ≤ length result.now }
        ensures most { length result.now ≤ 4 }
    {
        match self {
            Key::Column(name) => slice::from_ref(name),
            Key::Columns(names, _) => names.as_slice(),
        }
    }
}

/// Two to four names of columns, seen as their list.
#[derive(Drop)]
pub struct KeyNames {
    names: Vec<Name>,
}

impl Model for KeyNames {
    ghost use Rattle.std.specs.Prelude.{List, length};
    ghost use Rattle.query_syntax.specs.Counts.{IsNameCount};
    ghost use Rattle.query_syntax.specs.declared.leaf.Name.{Name};

    ghost Value = { List Name };

    ghost view = { λ key. key.names.items };

    ghost invariant = { λ key. IsNameCount (length key.names.items) };
}

impl KeyNames {
    pub fn of(names: Vec<Name>) -> KeyNames
        requires { IsNameCount (length names.items) }
        ensures { result ≡ names.items }
    {
        KeyNames { names }
    }

    pub fn as_slice(&self) -> &[Name]
        ensures names { result.now ≡ self.now }
        ensures count { IsNameCount (length self.now) }
    {
        self.names.as_slice()
    }
}
