//! A list of values that wait.
ghost use Rattle.std.specs.Prelude.{◌≡◌, ◌<◌, ◌++◌, [], ◌∷◌, length, slice_get, Some, OnOk, OnErr};
ghost use Rattle.runner_snapshot.specs.Got.{Gets};

use crate::number_bytes::{put_count, put_number};
use crate::output::Output;
use crate::value_bytes::put_value;
use std::alloc::{AllocError, Global};
use std::marker::Model;
use value_ops::Value;

/// A value with the starts from which and up to which its piece goes.
#[derive(Drop)]
struct Entry {
    inner: u64,
    outer: u64,
    value: Value,
}

/// Values that wait, each with the inner and the outer start of its piece, seen as their list.
#[derive(Drop)]
pub struct Entries {
    entries: Vec<Entry>,
}

impl Model for Entries {
    ghost use Rattle.std.specs.Prelude.{List};
    ghost use Rattle.runner_snapshot.specs.declared.entries.Entry.{Entry};

    ghost Value = { List Entry };

    ghost view = { λ e. e.entries.items };
}

impl Entries {
    ghost use Rattle.std.specs.List.{flat_map};
    ghost use Rattle.runner_snapshot.specs.Bytes.{entries_bytes, waiting_bytes};

    fn put_all<O: Output>(entries: &[Entry], out: &mut O) -> Result<(), AllocError>
        ensures { OnOk result (Gets O.got out.old (flat_map waiting_bytes entries.now) out.new) }
    {
        'entries: for entry in entries {
            put_number(entry.inner, out)?;
            put_number(entry.outer, out)?;
            put_value(&entry.value, out)?;
        }
        Ok(())
    }

    /// None, which take no memory.
    pub fn new(alloc: Global) -> Entries
        ensures { result ≡ [] }
    {
        Entries {
            entries: Vec::new(alloc),
        }
    }

    pub fn len(&self) -> usize
        ensures { result ≡ length self.now }
    {
        self.entries.len()
    }

    pub fn push(&mut self, inner: u64, outer: u64, value: Value) -> Result<(), AllocError>
        ensures ok { OnOk result (self.new
            ≡ self.old ++ record { inner = inner; outer = outer; value = value } ∷ []) }
        ensures err { OnErr result (self.new ≡ self.old) }
    {
        self.entries.push(Entry {
            inner,
            outer,
            value,
        })?;
        Ok(())
    }

    /// The inner start, the outer start and the value of the entry at `i`.
    pub fn get(&self, i: usize) -> (u64, u64, &Value)
        requires { i < length self.now }
        ensures { slice_get self.now i
            ≡ Some (record { inner = result.0; outer = result.1; value = result.2.now }) }
    {
        let entry = &self.entries[i];
        (entry.inner, entry.outer, &entry.value)
    }

    /// Appends the entries after their count.
    pub(crate) fn write<O: Output>(&self, out: &mut O) -> Result<(), AllocError>
        ensures { OnOk result (Gets O.got out.old (entries_bytes self.now) out.new) }
    {
        put_count(self.entries.len(), out)?;
        Entries::put_all(&self.entries, out)
    }
}
