//! Reads tables.
ghost use Rattle.std.specs.Prelude.{◌≡◌, OnOk};
ghost use Rattle.value_ops.specs.Entries.{keys_of};
ghost use Rattle.runner_snapshot.specs.Adding.{Adds};
ghost use Rattle.runner_snapshot.specs.Reading.{entries_at, Gives, more_entries_at};

use crate::reader::Reader;
use crate::{Flaw, SnapStop};
use indexmap::IndexSet;
use std::alloc::Global;
use value_ops::{Bytes, Scalar, Table};

// Appends an entry, unless its key stands in the table; the names are the keys that do.
fn add_entry(
    table: &mut Table,
    names: &mut IndexSet<Bytes>,
    key: &[u8],
    scalar: Scalar,
) -> Result<(), SnapStop>
    requires names { names.old.keys ≡ keys_of table.old }
    ensures entry { Adds table.old key.now scalar result table.new }
    ensures names { OnOk result (names.new.keys ≡ keys_of table.new) }
{
    if names.contains(key) {
        return Err(SnapStop::Bad(Flaw::Form));
    }
    let name = Bytes::from_slice(*names.allocator(), key)?;
    names.insert(name)?;
    table.push(key, scalar)?;
    Ok(())
}

impl Reader<'_> {
    // So many entries more for a table; the names are the keys that stand in it.
    fn entries_of(
        &mut self,
        count: u32,
        table: &mut Table,
        names: &mut IndexSet<Bytes>,
    ) -> Result<(), SnapStop>
        requires names { names.old.keys ≡ keys_of table.old }
        ensures { Gives (λ _. table.new) result self.new.rest.now
            (more_entries_at table.old count self.old.rest.now) }
    {
        'entries: for _ in 0..count {
            let key = self.text()?;
            let scalar = self.scalar()?;
            add_entry(table, names, key, scalar)?;
        }
        Ok(())
    }

    #[tactic(auto, unfolding(crate::specs::Reading::entries_at))]
    pub(crate) fn table(&mut self, alloc: Global) -> Result<Table, SnapStop>
        ensures { Gives (λ table. table) result self.new.rest.now (entries_at self.old.rest.now) }
    {
        let count = self.count()?;
        let mut table = Table::new(alloc);
        let mut names = IndexSet::new(alloc);
        self.entries_of(count, &mut table, &mut names)?;
        Ok(table)
    }
}
