//! The parts of a record.
ghost use Rattle.std.specs.Prelude.{◌≡◌, length};
ghost use Rattle.few_parts.specs.Sizes.{IsRecordSize};

use std::marker::Model;

/// Two to eight things, seen as their list.
#[derive(Drop)]
pub struct Few<T> {
    items: Vec<T>,
}

impl<T> Model for Few<T> {
    ghost use Rattle.std.specs.Prelude.{List, length};
    ghost use Rattle.std.specs.Coded.{coded_list};
    ghost use Rattle.few_parts.specs.Sizes.{IsRecordSize};

    ghost Value = { List T };

    ghost coded = { coded_list T.code };

    ghost view = { λ few. few.items.items };

    ghost invariant = { λ few. IsRecordSize (length few.items.items) };
}

impl<T> Few<T> {
    pub fn of(parts: Vec<T>) -> Few<T>
        requires { IsRecordSize (length parts.items) }
        ensures { result ≡ parts.items }
    {
        Few { items: parts }
    }

    pub fn as_slice(&self) -> &[T]
        ensures parts { result.now ≡ self.now }
        ensures size { IsRecordSize (length self.now) }
    {
        self.items.as_slice()
    }
}
