//! The entries of a table: the bytes of all keys in one list, and for each where they end.
ghost use Rattle.std.specs.Prelude.{◌≡◌, ◌<◌, ◌↔◌, ℕ, List, [], ◌∷◌, ◌++◌, length, slice_get};
ghost use Rattle.std.specs.Prelude.{IsTrue, IfOk, OnOk, OnErr};
ghost use Rattle.value_ops.specs.Entries.{keys_of, values_of, value_at};
ghost use Rattle.value_ops.specs.KeyBytes.{ends_of};
ghost use Rattle.value_ops.specs.declared.scalar.Scalar.{Scalar};

use crate::{Scalar, ValueType};
use std::alloc::{AllocError, Global};
use std::marker::Model;

// The bytes that are taken for a key: few keys have more.
const KEY_BYTES: usize = 8;

/// A scalar, and where the bytes of its key end among those of all keys.
#[derive(Clone, Copy)]
struct Entry {
    end: usize,
    value: Scalar,
}

/// What a table keeps, seen as the list of keys and scalars.
#[derive(Drop)]
pub(crate) struct Entries {
    // The bytes of all keys, one key after the other.
    keys: Vec<u8>,
    entries: Vec<Entry>,
}

impl Model for Entries {
    ghost use Rattle.std.specs.Prelude.{List, ℕ, length};
    ghost use Rattle.value_ops.specs.declared.scalar.Scalar.{Scalar};

    ghost Value = { List (List ℕ × Scalar) };

    ghost use Rattle.value_ops.specs.KeyBytes.{entries_from, KeysFill};
    ghost use Rattle.value_ops.specs.Types.{IsTable};

    ghost view = { λ e. entries_from 0 e.entries.items e.keys.items };

    ghost invariant = { λ e. KeysFill 0 e.entries.items (length e.keys.items)
        × IsTable (entries_from 0 e.entries.items e.keys.items) };
}

// Where the key of the entry at `i` begins: where the one before ends.
fn key_start(entries: &[Entry], i: usize) -> usize
    requires { i < length entries.now }
    ensures { slice_get (0 ∷ ends_of entries.now) i ≡ Some result }
{
    if i == 0 {
        return 0;
    }
    entries[i - 1].end
}

impl Entries {
    ghost use Rattle.value_ops.specs.Types.{IsTable};

    pub(crate) fn new(alloc: Global) -> Entries
        ensures { result ≡ [] }
    {
        Entries {
            keys: Vec::new(alloc),
            entries: Vec::new(alloc),
        }
    }

    /// None, with room for this many whose keys are short.
    pub(crate) fn with_capacity(alloc: Global, entries: usize) -> Result<Entries, AllocError>
        ensures { IfOk result (λ none. none ≡ []) }
    {
        let bytes = entries.saturating_mul(KEY_BYTES);
        Ok(Entries {
            keys: Vec::with_capacity(alloc, bytes)?,
            entries: Vec::with_capacity(alloc, entries)?,
        })
    }

    pub(crate) fn len(&self) -> usize
        ensures { result ≡ length self.now }
    {
        self.entries.len()
    }

    pub(crate) fn is_empty(&self) -> bool
        ensures { IsTrue result ↔ (self.now ≡ []) }
    {
        self.entries.is_empty()
    }

    /// The key of the entry at `i`.
    pub(crate) fn key(&self, i: usize) -> &[u8]
        requires { i < length self.now }
        ensures { slice_get (keys_of self.now) i ≡ Some result.now }
    {
        let start = key_start(&self.entries, i);
        &self.keys.as_slice()[start..self.entries[i].end]
    }

    /// The scalar of the entry at `i`.
    pub(crate) fn value(&self, i: usize) -> Scalar
        requires { i < length self.now }
        ensures { slice_get (values_of self.now) i ≡ Some result }
    {
        self.entries[i].value
    }

    /// The type of all tables.
    pub(crate) fn ty(&self) -> ValueType
        ensures ty { result ≡ ValueType.Table }
        ensures entries { IsTable self.now }
    {
        // Reading the entries shows that they are those of a table.
        let _entries = &self.entries;
        ValueType::Table
    }

    /// What stands under the key.
    pub(crate) fn get(&self, key: &[u8]) -> Option<Scalar>
        ensures { result ≡ value_at key.now self.now }
    {
        let mut start = 0;
        'entries: for entry in &self.entries {
            let kept = &self.keys.as_slice()[start..entry.end];
            if kept == key {
                return Some(entry.value);
            }
            start = entry.end;
        }
        None
    }

    /// Appends an entry.
    pub(crate) fn push(&mut self, key: &[u8], value: Scalar) -> Result<(), AllocError>
        requires { value_at key.now self.old ≡ None }
        ensures ok { OnOk result (self.new ≡ self.old ++ (key.now, value) ∷ []) }
        ensures err { OnErr result (self.new ≡ self.old) }
    {
        self.entries.reserve(1)?;
        self.keys.extend_from_slice(key)?;
        let end = self.keys.len();
        let value = value.known();
        self.entries.push_reserved(Entry { end, value });
        Ok(())
    }

    pub(crate) fn try_copy(&self, alloc: Global) -> Result<Entries, AllocError>
        ensures { IfOk result (λ copy. copy ≡ self.now) }
    {
        Ok(Entries {
            keys: Vec::from_slice(alloc, &self.keys)?,
            entries: Vec::from_slice(alloc, &self.entries)?,
        })
    }
}
