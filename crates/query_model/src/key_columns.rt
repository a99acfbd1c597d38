//! The columns of a collect's key.
ghost use Rattle.std.specs.Prelude.{◌≡◌, length, IfOk};
ghost use Rattle.query_model.specs.Keys.{IsKeySize};

use std::alloc::{AllocError, Global};
use std::marker::Model;

/// One to four columns by their places in the stream, in the order in which they are written.
#[derive(Drop)]
pub struct KeyColumns {
    at: Vec<u32>,
}

impl Model for KeyColumns {
    ghost use Rattle.std.specs.Prelude.{List, ℕ, length};
    ghost use Rattle.query_model.specs.Keys.{IsKeySize};

    ghost Value = { List ℕ };

    ghost view = { λ columns. columns.at.items };

    ghost invariant = { λ columns. IsKeySize (length columns.at.items) };
}

impl KeyColumns {
    pub fn of(at: Vec<u32>) -> KeyColumns
        requires { IsKeySize (length at.items) }
        ensures { result ≡ at.items }
    {
        KeyColumns { at }
    }

    pub fn as_slice(&self) -> &[u32]
        ensures columns { result.now ≡ self.now }
        ensures size { IsKeySize (length self.now) }
    {
        self.at.as_slice()
    }

    pub fn try_copy(&self, alloc: Global) -> Result<KeyColumns, AllocError>
        ensures { IfOk result (λ copy. copy ≡ self.now) }
    {
        Ok(KeyColumns::of(Vec::from_slice(alloc, self.as_slice())?))
    }
}
