//! Scalars under keys.
ghost use Rattle.std.specs.Prelude.{◌≡◌, ◌<◌, ◌↔◌, ℕ, List, [], ◌∷◌, ◌++◌, length, slice_get};
ghost use Rattle.std.specs.Prelude.{IsTrue, IfOk, Contains, OnOk, OnErr};
ghost use Rattle.value_ops.specs.Entries.{keys_of, values_of, value_at};
ghost use Rattle.value_ops.specs.declared.scalar.Scalar.{Scalar};

use crate::entries::Entries;
use crate::{Scalar, ValueType};
use std::alloc::{AllocError, Global};
use std::marker::Model;

/// Scalars under keys in the order in which they came, no two under one key; seen as the list of
/// keys and scalars. It is no larger than a scalar, as each value has the size of the larger.
#[derive(Drop)]
pub struct Table {
    alloc: Global,
    // A table without them has none.
    entries: Option<Box<Entries>>,
}

impl Model for Table {
    ghost use Rattle.std.specs.Prelude.{List, ℕ, []};
    ghost use Rattle.std.specs.Option.{option_map_or};
    ghost use Rattle.value_ops.specs.declared.scalar.Scalar.{Scalar};

    ghost Value = { List (List ℕ × Scalar) };

    ghost view = { λ t. option_map_or (λ entries. entries.value) t.entries [] };
}

fn first_entry(alloc: Global, key: &[u8], value: Scalar) -> Result<Box<Entries>, AllocError>
    ensures { IfOk result (λ entries. entries.value ≡ (key.now, value) ∷ []) }
{
    let mut entries = Entries::new(alloc);
    entries.push(key, value)?;
    Ok(Box::new(alloc, entries)?)
}

impl Table {
    ghost use Rattle.value_ops.specs.Types.{IsTable};

    /// The empty table takes no memory.
    pub fn new(alloc: Global) -> Table
        ensures { result ≡ [] }
    {
        Table {
            alloc,
            entries: None,
        }
    }

    /// The empty table, with room for this many entries whose keys are short.
    pub fn with_capacity(alloc: Global, entries: usize) -> Result<Table, AllocError>
        ensures { IfOk result (λ table. table ≡ []) }
    {
        let entries = Entries::with_capacity(alloc, entries)?;
        Ok(Table {
            alloc,
            entries: Some(Box::new(alloc, entries)?),
        })
    }

    /// How many entries there are.
    pub fn len(&self) -> usize
        ensures { result ≡ length self.now }
    {
        match &self.entries {
            Some(entries) => entries.len(),
            None => 0,
        }
    }

    pub fn is_empty(&self) -> bool
        ensures { IsTrue result ↔ (self.now ≡ []) }
    {
        match &self.entries {
            Some(entries) => entries.is_empty(),
            None => true,
        }
    }

    /// The key of the entry at `i`.
    pub fn key(&self, i: usize) -> &[u8]
        requires { i < length self.now }
        ensures { slice_get (keys_of self.now) i ≡ Some result.now }
    {
        match &self.entries {
            Some(entries) => entries.key(i),
            None => unreachable!(),
        }
    }

    /// The scalar of the entry at `i`.
    pub fn value(&self, i: usize) -> Scalar
        requires { i < length self.now }
        ensures { slice_get (values_of self.now) i ≡ Some result }
    {
        match &self.entries {
            Some(entries) => entries.value(i),
            None => unreachable!(),
        }
    }

    /// The type of all tables.
    pub(crate) fn ty(&self) -> ValueType
        ensures ty { result ≡ ValueType.Table }
        ensures entries { IsTable self.now }
    {
        match &self.entries {
            Some(entries) => entries.ty(),
            None => ValueType::Table,
        }
    }

    /// What stands under the key.
    pub fn get(&self, key: &[u8]) -> Option<Scalar>
        ensures { result ≡ value_at key.now self.now }
    {
        match &self.entries {
            Some(entries) => entries.get(key),
            None => None,
        }
    }

    /// Appends an entry.
    pub fn push(&mut self, key: &[u8], value: Scalar) -> Result<(), AllocError>
        requires { value_at key.now self.old ≡ None }
        ensures ok { OnOk result (self.new ≡ self.old ++ (key.now, value) ∷ []) }
        ensures err { OnErr result (self.new ≡ self.old) }
    {
        match &mut self.entries {
            Some(entries) => entries.push(key, value),
            None => {
                self.entries = Some(first_entry(self.alloc, key, value)?);
                Ok(())
            }
        }
    }

    pub fn try_copy(&self, alloc: Global) -> Result<Table, AllocError>
        ensures { IfOk result (λ copy. copy ≡ self.now) }
    {
        match &self.entries {
            Some(entries) => {
                let entries = entries.try_copy(alloc)?;
                Ok(Table {
                    alloc,
                    entries: Some(Box::new(alloc, entries)?),
                })
            }
            None => Ok(Table::new(alloc)),
        }
    }
}

/// Nothing stands under a key exactly where no entry has it.
pub fn absent_keys_have_no_value()
    ensures { (key : List ℕ) (entries : List (List ℕ × Scalar)) →
        (value_at key entries ≡ None) ↔ (¬ Contains (keys_of entries) key) }
{}
