//! A set of cells.
ghost use Rattle.std.specs.Prelude.{◌≡◌, ◌↔◌, [], IsTrue, IfOk};
ghost use Rattle.std.specs.List.{Contains};
ghost use Rattle.predicate_cells.specs.CellSets.{flagged_from};

use std::alloc::{AllocError, Global};
use std::marker::Model;

/// A set of cells of one stream, seen as their numbers in rising order.
#[derive(Drop)]
pub struct CellSet {
    flags: Vec<bool>,
}

impl Model for CellSet {
    ghost use Rattle.std.specs.Prelude.{List, ℕ};
    ghost use Rattle.predicate_cells.specs.CellSets.{flagged_from};

    ghost Value = { List ℕ };

    ghost view = { λ s. flagged_from 0 s.flags.items };
}

impl CellSet {
    pub(crate) fn from_flags(flags: Vec<bool>) -> CellSet
        ensures { result ≡ flagged_from 0 flags.items }
    {
        CellSet { flags }
    }

    pub fn try_copy(&self, alloc: Global) -> Result<CellSet, AllocError>
        ensures { IfOk result (λ copy. copy ≡ self.now) }
    {
        Ok(CellSet {
            flags: Vec::from_slice(alloc, &self.flags)?,
        })
    }

    pub fn has(&self, cell: u32) -> bool
        ensures { IsTrue result ↔ Contains self.now cell }
    {
        self.flags.get(cell as usize).is_some_and(|flag| *flag)
    }

    pub fn is_empty(&self) -> bool
        ensures { IsTrue result ↔ (self.now ≡ []) }
    {
        !self.flags.contains(&true)
    }
}
