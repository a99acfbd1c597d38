//! A follower for each key that came, and a default one for the keys that have not come yet.
ghost use Rattle.std.specs.Prelude.{◌≡◌, ◌<◌, [], length, Some, IfNone, IfSome, OnErr, OnOk};
ghost use Rattle.std.specs.Prelude.{slice_get};
ghost use Rattle.std.specs.Borrow.{sem};
ghost use Rattle.std.specs.List.{Contains};
ghost use Rattle.map_collect.specs.Followers.{with_key, AreDistinct};
ghost use Rattle.map_collect.specs.Keys.{fallback_of, followers_of, keyed_of, names_of};
ghost use Rattle.map_collect.specs.Lending.{LendsFallback, LendsFollower};

use crate::Keyed;
use std::alloc::{AllocError, Global};

/// The followers of one track. The follower of a key that comes later begins as a copy of the
/// default one, which has read the items that belong to all keys.
#[derive(Drop)]
pub struct Keys<R> {
    fallback: R,
    keyed: Keyed<R>,
}

impl<R: Drop> Keys<R> {
    /// Takes no memory before the first key.
    pub fn new(alloc: Global, fresh: R) -> Keys<R>
        ensures fallback { fallback_of result ≡ fresh }
        ensures keyed { keyed_of result ≡ record { names = []; followers = [] } }
    {
        Keys {
            fallback: fresh,
            keyed: Keyed::new(alloc),
        }
    }

    pub fn place(&self, key: &[u8]) -> Option<usize>
        ensures there { IfSome result (λ i. slice_get (names_of self.now) i ≡ Some key.now) }
        ensures none { IfNone result (Contains (names_of self.now) key.now → ⊥) }
    {
        self.keyed.place(key)
    }

    pub fn add(&mut self, key: &[u8], follower: R) -> Result<(), AllocError>
        requires fresh { Contains (names_of self.old) key.now → ⊥ }
        ensures ok { OnOk result
            (keyed_of self.new ≡ with_key key.now follower (keyed_of self.old)) }
        ensures err { OnErr result (keyed_of self.new ≡ keyed_of self.old) }
        ensures fallback { fallback_of self.new ≡ fallback_of self.old }
    {
        self.keyed.add(key, follower)
    }

    pub fn fallback(&self) -> &R
        ensures { result.now ≡ fallback_of self.now }
    {
        &self.fallback
    }

    pub fn fallback_mut(&mut self) -> &mut R
        ensures* lends { sem 𝓛 (LendsFallback R.row self.entry result) }
        ensures value { result.now ≡ fallback_of self.old }
    {
        &mut self.fallback
    }

    pub fn key(&self, i: usize) -> &[u8]
        requires { i < length (names_of self.now) }
        ensures { slice_get (names_of self.now) i ≡ Some result.now }
    {
        self.keyed.key(i)
    }

    pub fn follower(&self, i: usize) -> &R
        requires { i < length (names_of self.now) }
        ensures { slice_get (followers_of self.now) i ≡ Some result.now }
    {
        self.keyed.follower(i)
    }

    pub fn follower_mut(&mut self, i: usize) -> &mut R
        requires { i < length (names_of self.old) }
        ensures* lends { sem 𝓛 (LendsFollower R.row self.entry i result) }
        ensures value { slice_get (followers_of self.old) i ≡ Some result.now }
    {
        self.keyed.follower_mut(i)
    }

    pub fn len(&self) -> usize
        ensures count { result ≡ length (names_of self.now) }
        ensures each { length (followers_of self.now) ≡ length (names_of self.now) }
        ensures distinct { AreDistinct (names_of self.now) }
    {
        self.keyed.len()
    }
}
