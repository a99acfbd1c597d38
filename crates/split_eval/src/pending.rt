//! Entries by their inner start. Memory for all of them is reserved once.
ghost use Rattle.std.specs.Prelude.{◌≡◌, ◌<◌, ◌≤◌, ◌++◌, ℕ, Bool, [], ◌∷◌, length, None, Some};
ghost use Rattle.std.specs.Prelude.{IfNone, IfOk, slice_get};
ghost use Rattle.std.specs.List.{position_from};
ghost use Rattle.std.specs.Option.{option_copied};
ghost use Rattle.split_eval.specs.Entries.{entry_at, is_at, live_entries, without, AnswersAs};
ghost use Rattle.split_eval.specs.Entries.{AreDistinct};

use crate::Entry;
use std::alloc::{AllocError, Global};
use std::marker::Model;

/// A list of entries, no two with the same inner start.
#[derive(Drop)]
pub struct Pending<V> {
    entries: Vec<Entry<V>>,
    room: u32,
}

impl<V> Model for Pending<V> {
    ghost use Rattle.std.specs.Prelude.{vec_capacity};
    ghost use Rattle.split_eval.specs.Entries.{Contents, IsKept};

    ghost Value = { Contents V };

    ghost view = { λ p. record { entries = p.entries.items; room = p.room } };

    ghost invariant = { λ p. IsKept p.entries.items p.room (vec_capacity p.entries) };
}

fn place_of<V>(entries: &[Entry<V>], inner: u64) -> Option<usize>
    ensures { result ≡ position_from (is_at inner) 0 entries.now }
{
    entries.iter().position(|entry| entry.inner == inner)
}

impl<V: Drop> Pending<V> {
    /// Reserves memory for `room` entries, so that no later call can be out of memory.
    pub fn new(alloc: Global, room: u32) -> Result<Pending<V>, AllocError>
        ensures { IfOk result (λ pending. pending ≡ record { entries = []; room = room }) }
    {
        let entries = Vec::with_capacity(alloc, room as usize)?;
        Ok(Pending { entries, room })
    }

    pub fn put(&mut self, inner: u64, outer: u64, value: V)
        requires room { length self.old.entries < self.old.room }
        requires fresh { entry_at self.old.entries inner ≡ None }
        ensures entries { self.new.entries
            ≡ self.old.entries ++ record { inner = inner; outer = outer; value = value } ∷ [] }
        ensures room { self.new.room ≡ self.old.room }
    {
        self.entries.push_reserved(Entry {
            inner,
            outer,
            value,
        });
    }

    pub fn find(&self, inner: u64) -> Option<&Entry<V>>
        ensures { option_copied result ≡ entry_at self.now.entries inner }
    {
        self.entries.iter().find(|entry| entry.inner == inner)
    }

    pub fn take(&mut self, inner: u64) -> Option<Entry<V>>
        ensures taken { result ≡ entry_at self.old.entries inner }
        ensures others { self.new.entries ≡ without self.old.entries inner }
        ensures none { IfNone result (self.new ≡ self.old) }
        ensures room { self.new.room ≡ self.old.room }
    {
        let place = place_of(&self.entries, inner)?;
        Some(self.entries.remove(place))
    }

    pub fn keep<F: Fn(u64) -> bool>(&mut self, live: F)
        requires { F.IsAlwaysCallable live }
        ensures entries { (is_live : ℕ → Bool) → AnswersAs F.post live is_live
            → self.new.entries ≡ live_entries is_live self.old.entries }
        ensures room { self.new.room ≡ self.old.room }
    {
        self.entries.retain(|entry| live(entry.inner));
    }

    pub fn entry(&self, i: usize) -> &Entry<V>
        requires { i < length self.now.entries }
        ensures { slice_get self.now.entries i ≡ Some result.now }
    {
        &self.entries[i]
    }

    pub fn clear(&mut self)
        ensures entries { self.new.entries ≡ [] }
        ensures room { self.new.room ≡ self.old.room }
    {
        self.entries.clear();
    }

    pub fn len(&self) -> usize
        ensures count { result ≡ length self.now.entries }
        ensures few { length self.now.entries ≤ self.now.room }
        ensures distinct { AreDistinct self.now.entries }
    {
        self.entries.len()
    }

    pub fn room(&self) -> u32
        ensures { result ≡ self.now.room }
    {
        self.room
    }
}
