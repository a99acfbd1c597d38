//! Values so far by their inner start. Memory for all of them is reserved once.
ghost use Rattle.std.specs.Prelude.{◌≡◌, ◌<◌, ◌≤◌, ◌++◌, ℕ, Bool, [], ◌∷◌, length, None, Some};
ghost use Rattle.std.specs.Prelude.{IfNone, IfOk, slice_get};
ghost use Rattle.std.specs.Option.{option_copied};
ghost use Rattle.split_eval.specs.Entries.{entry_at, live_entries, without, AnswersAs, AreDistinct};

use split_eval::{Entry, Pending};
use std::alloc::{AllocError, Global};
use std::marker::Model;

/// A list of entries, no two with the same inner start. The value of an entry is that of all pieces
/// from its outer start up to its inner one, where the next piece begins. So a value so far is like
/// the left value of a split, and the next piece like its right piece.
#[derive(Drop)]
pub struct Chain<V> {
    so_far: Pending<V>,
}

impl<V> Model for Chain<V> {
    ghost use Rattle.split_eval.specs.Entries.{Contents};

    ghost Value = { Contents V };

    ghost view = { λ chain. chain.so_far };
}

impl<V: Drop> Chain<V> {
    /// Takes over a list of entries as it is.
    pub fn from_pending(so_far: Pending<V>) -> Chain<V>
        ensures { result ≡ so_far }
    {
        Chain { so_far }
    }

    /// Lends the entries for reading.
    pub fn as_pending(&self) -> &Pending<V>
        ensures { result.now ≡ self.now }
    {
        &self.so_far
    }

    /// Reserves memory for `room` entries, so that no later call can be out of memory.
    pub fn new(alloc: Global, room: u32) -> Result<Chain<V>, AllocError>
        ensures { IfOk result (λ chain. chain ≡ record { entries = []; room = room }) }
    {
        let so_far = Pending::new(alloc, room)?;
        Ok(Chain { so_far })
    }

    #[inline(always)]
    pub fn put(&mut self, inner: u64, outer: u64, value: V)
        requires room { length self.old.entries < self.old.room }
        requires fresh { entry_at self.old.entries inner ≡ None }
        ensures entries { self.new.entries
            ≡ self.old.entries ++ record { inner = inner; outer = outer; value = value } ∷ [] }
        ensures room { self.new.room ≡ self.old.room }
    {
        self.so_far.put(inner, outer, value);
    }

    pub fn find(&self, inner: u64) -> Option<&Entry<V>>
        ensures { option_copied result ≡ entry_at self.now.entries inner }
    {
        self.so_far.find(inner)
    }

    pub fn take(&mut self, inner: u64) -> Option<Entry<V>>
        ensures taken { result ≡ entry_at self.old.entries inner }
        ensures others { self.new.entries ≡ without self.old.entries inner }
        ensures none { IfNone result (self.new ≡ self.old) }
        ensures room { self.new.room ≡ self.old.room }
    {
        self.so_far.take(inner)
    }

    #[inline(always)]
    pub fn keep<F: Fn(u64) -> bool>(&mut self, live: F)
        requires { F.IsAlwaysCallable live }
        ensures entries { (is_live : ℕ → Bool) → AnswersAs F.post live is_live
            → self.new.entries ≡ live_entries is_live self.old.entries }
        ensures room { self.new.room ≡ self.old.room }
    {
        self.so_far.keep(live);
    }

    pub fn entry(&self, i: usize) -> &Entry<V>
        requires { i < length self.now.entries }
        ensures { slice_get self.now.entries i ≡ Some result.now }
    {
        self.so_far.entry(i)
    }

    pub fn clear(&mut self)
        ensures entries { self.new.entries ≡ [] }
        ensures room { self.new.room ≡ self.old.room }
    {
        self.so_far.clear();
    }

    pub fn len(&self) -> usize
        ensures count { result ≡ length self.now.entries }
        ensures few { length self.now.entries ≤ self.now.room }
        ensures distinct { AreDistinct self.now.entries }
    {
        self.so_far.len()
    }

    pub fn room(&self) -> u32
        ensures { result ≡ self.now.room }
    {
        self.so_far.room()
    }
}
