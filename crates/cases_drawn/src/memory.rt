//! What an engine may keep.
ghost use Rattle.std.specs.Prelude.{◌≡◌};
ghost use Rattle.std.specs.List.{list_all};
ghost use Rattle.cases_drawn.specs.Kept.{is_within};

/// What an engine keeps after an item.
#[derive(Clone, Copy)]
pub(crate) struct Kept {
    pub(crate) stored: u64,
    /// How many different texts the items so far have. Each could be a key.
    pub(crate) texts: u32,
}

/// What it may keep: the slots of the query, and if that makes tables, as many again for each key.
#[derive(Clone, Copy)]
pub(crate) struct Bound {
    pub(crate) slots: u32,
    pub(crate) makes_tables: bool,
}

impl Bound {
    /// Whether all of them are within the bound.
    pub(crate) fn holds(self, kept: &[Kept]) -> bool
        ensures { result ≡ list_all (is_within self) kept.now }
    {
        kept.iter().all(|one| self.allows(one))
    }

    fn allows(self, kept: &Kept) -> bool
        ensures { result ≡ is_within self kept.now }
    {
        let shares = if self.makes_tables {
            u64::from(kept.texts) + 1
        } else {
            1
        };
        kept.stored <= u64::from(self.slots).saturating_mul(shares)
    }
}
