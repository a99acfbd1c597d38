//! Where the pieces of a word begin and end.
ghost use Rattle.std.specs.Prelude.{◌≡◌, IfOk};

use std::alloc::{AllocError, Global};
use std::marker::Model;

/// Where the first piece begins, and where each piece ends. A place is the number of items before
/// it.
#[derive(Drop)]
pub struct Cuts {
    at: Vec<u32>,
}

impl Model for Cuts {
    ghost use Rattle.std.specs.Prelude.{List, ℕ};

    ghost Value = { List ℕ };

    ghost view = { λ c. c.at.items };
}

impl Cuts {
    pub fn new(alloc: Global, at: &[u32]) -> Result<Cuts, AllocError>
        ensures { IfOk result (λ cuts. cuts ≡ at.now) }
    {
        Ok(Cuts {
            at: Vec::from_slice(alloc, at)?,
        })
    }

    pub(crate) fn from_vec(at: Vec<u32>) -> Cuts
        ensures { result ≡ at.items }
    {
        Cuts { at }
    }

    pub fn as_slice(&self) -> &[u32]
        ensures { result.now ≡ self.now }
    {
        &self.at
    }
}
