//! Followers by the bytes of their keys, which an index finds in constant time.
ghost use Rattle.std.specs.Prelude.{◌≡◌, ◌<◌, ◌++◌, [], ◌∷◌, length, Some, IfNone, IfSome, OnErr};
ghost use Rattle.std.specs.Prelude.{OnOk, slice_get};
ghost use Rattle.std.specs.Borrow.{sem};
ghost use Rattle.std.specs.List.{Contains};
ghost use Rattle.map_collect.specs.Followers.{with_key, AreDistinct};
ghost use Rattle.map_collect.specs.Lending.{LendsKeyed};

use indexmap::IndexSet;
use language_base::Bytes;
use std::alloc::{AllocError, Global};
use std::marker::Model;

/// The keys in the order in which they first came, and a follower for each.
#[derive(Drop)]
pub struct Keyed<R> {
    names: IndexSet<Bytes>,
    followers: Vec<R>,
}

impl<R> Model for Keyed<R> {
    ghost use Rattle.map_collect.specs.Followers.{code_of_followers, AreKept, Followers};

    ghost Value = { Followers R };

    ghost coded = { code_of_followers R.code };

    ghost view = { λ k. record { names = k.names.keys; followers = k.followers.items } };

    ghost invariant = { λ k. AreKept k.names.keys k.followers.items };
}

impl<R: Drop> Keyed<R> {
    /// Takes no memory before the first key.
    pub fn new(alloc: Global) -> Keyed<R>
        ensures { result ≡ record { names = []; followers = [] } }
    {
        Keyed {
            names: IndexSet::new(alloc),
            followers: Vec::new(alloc),
        }
    }

    pub fn place(&self, key: &[u8]) -> Option<usize>
        ensures there { IfSome result (λ i. slice_get self.now.names i ≡ Some key.now) }
        ensures none { IfNone result (Contains self.now.names key.now → ⊥) }
    {
        self.names.get_index_of(key)
    }

    /// Appends a new key with its follower.
    pub fn add(&mut self, key: &[u8], follower: R) -> Result<(), AllocError>
        requires fresh { Contains self.old.names key.now → ⊥ }
        ensures ok { OnOk result (self.new ≡ with_key key.now follower self.old) }
        ensures err { OnErr result (self.new ≡ self.old) }
    {
        self.followers.reserve(1)?;
        let name = Bytes::from_slice(*self.names.allocator(), key)?;
        self.names.insert(name)?;
        self.followers.push_reserved(follower);
        Ok(())
    }

    pub fn key(&self, i: usize) -> &[u8]
        requires { i < length self.now.names }
        ensures { slice_get self.now.names i ≡ Some result.now }
    {
        self.names.as_slice()[i].as_slice()
    }

    pub fn follower(&self, i: usize) -> &R
        requires { i < length self.now.names }
        ensures { slice_get self.now.followers i ≡ Some result.now }
    {
        &self.followers[i]
    }

    pub fn follower_mut(&mut self, i: usize) -> &mut R
        requires { i < length self.old.names }
        ensures* lends { sem 𝓛 (LendsKeyed R.row self.entry i result) }
        ensures value { slice_get self.old.followers i ≡ Some result.now }
    {
        &mut self.followers[i]
    }

    pub fn len(&self) -> usize
        ensures count { result ≡ length self.now.names }
        ensures each { length self.now.followers ≡ length self.now.names }
        ensures distinct { AreDistinct self.now.names }
    {
        self.names.len()
    }
}
