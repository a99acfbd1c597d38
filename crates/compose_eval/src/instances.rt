//! Instances by their outer start, and idle followers. Memory for all of them is reserved once.
ghost use Rattle.std.specs.Prelude.{◌≡◌, ◌<◌, ◌≤◌, ◌+◌, ◌++◌, ℕ, Bool, [], ◌∷◌, length, None, Some};
ghost use Rattle.std.specs.Prelude.{IfNone, IfSome, IfOk, slice_get};
ghost use Rattle.std.specs.Borrow.{sem};
ghost use Rattle.std.specs.List.{position_from};
ghost use Rattle.compose_eval.specs.Followers.{instance_at, is_at, outers_of, followers_of};
ghost use Rattle.compose_eval.specs.Followers.{live_instances, retired, AnswersAs, IsAt};
ghost use Rattle.compose_eval.specs.Followers.{AreDistinct, Wakes};
ghost use Rattle.compose_eval.specs.Lending.{LendsFollower, LendsResting};

use crate::Instance;
use std::alloc::{AllocError, Global};
use std::marker::Model;

/// A list of instances, no two with the same outer start, and a list of idle followers.
#[derive(Drop)]
pub struct Instances<R> {
    live: Vec<Instance<R>>,
    idle: Vec<R>,
    room: u32,
}

impl<R> Model for Instances<R> {
    ghost use Rattle.std.specs.Prelude.{vec_capacity};
    ghost use Rattle.compose_eval.specs.Followers.{Contents, contents_code, IsKept};

    ghost Value = { Contents R };

    ghost coded = { contents_code R.code };

    ghost view = { λ a. record { live = a.live.items; idle = a.idle.items; room = a.room } };

    ghost invariant = { λ a.
        IsKept a.live.items a.idle.items a.room (vec_capacity a.live) (vec_capacity a.idle) };
}

fn place_of<R>(live: &[Instance<R>], outer: u64) -> Option<usize>
    ensures { result ≡ position_from (is_at outer) 0 live.now }
{
    live.iter().position(|instance| instance.outer == outer)
}

impl<R: Drop> Instances<R> {
    /// Reserves memory for `room` followers, so that no later call can be out of memory.
    pub fn new(alloc: Global, room: u32) -> Result<Instances<R>, AllocError>
        ensures { IfOk result (λ made. made ≡ record { live = []; idle = []; room = room }) }
    {
        let live = Vec::with_capacity(alloc, room as usize)?;
        let idle = Vec::with_capacity(alloc, room as usize)?;
        Ok(Instances { live, idle, room })
    }

    pub fn rest(&mut self, follower: R)
        requires room { length self.old.live + length self.old.idle < self.old.room }
        ensures idle { self.new.idle ≡ self.old.idle ++ follower ∷ [] }
        ensures live { self.new.live ≡ self.old.live }
        ensures room { self.new.room ≡ self.old.room }
    {
        self.idle.push_reserved(follower);
    }

    pub fn put(&mut self, outer: u64, follower: R)
        requires room { length self.old.live + length self.old.idle < self.old.room }
        requires fresh { instance_at self.old.live outer ≡ None }
        ensures live { self.new.live
            ≡ self.old.live ++ record { outer = outer; follower = follower } ∷ [] }
        ensures idle { self.new.idle ≡ self.old.idle }
        ensures room { self.new.room ≡ self.old.room }
    {
        self.live.push_reserved(Instance { outer, follower });
    }

    pub fn wake(&mut self, outer: u64)
        requires idle { 0 < length self.old.idle }
        requires fresh { instance_at self.old.live outer ≡ None }
        ensures wakes { Wakes outer self.old self.new }
        ensures room { self.new.room ≡ self.old.room }
    {
        if let Some(follower) = self.idle.pop() {
            self.put(outer, follower);
        }
    }

    pub fn place(&self, outer: u64) -> Option<usize>
        ensures there { IfSome result (λ i. IsAt self.now.live i outer) }
        ensures none { IfNone result (instance_at self.now.live outer ≡ None) }
    {
        place_of(&self.live, outer)
    }

    pub fn follower_mut(&mut self, i: usize) -> &mut R
        requires { i < length self.old.live }
        ensures* lends { sem 𝓛 (LendsFollower R.row self.entry i result) }
        ensures value { slice_get (followers_of self.old.live) i ≡ Some result.now }
    {
        &mut self.live[i].follower
    }

    pub fn outer(&self, i: usize) -> u64
        requires { i < length self.now.live }
        ensures { slice_get (outers_of self.now.live) i ≡ Some result }
    {
        self.live[i].outer
    }

    pub fn follower(&self, i: usize) -> &R
        requires { i < length self.now.live }
        ensures { slice_get (followers_of self.now.live) i ≡ Some result.now }
    {
        &self.live[i].follower
    }

    pub fn resting(&self, i: usize) -> &R
        requires { i < length self.now.idle }
        ensures { slice_get self.now.idle i ≡ Some result.now }
    {
        &self.idle[i]
    }

    pub fn resting_mut(&mut self, i: usize) -> &mut R
        requires { i < length self.old.idle }
        ensures* lends { sem 𝓛 (LendsResting R.row self.entry i result) }
        ensures value { slice_get self.old.idle i ≡ Some result.now }
    {
        &mut self.idle[i]
    }

    /// Followers whose start is dead become idle, in their order.
    pub fn keep<F: Fn(u64) -> bool>(&mut self, live: F)
        requires { F.IsAlwaysCallable live }
        ensures live { (is_live : ℕ → Bool) → AnswersAs F.post live is_live
            → self.new.live ≡ live_instances is_live self.old.live }
        ensures idle { (is_live : ℕ → Bool) → AnswersAs F.post live is_live
            → self.new.idle ≡ self.old.idle ++ retired is_live self.old.live }
        ensures room { self.new.room ≡ self.old.room }
    {
        let mut place = 0;
        'instances: for _ in 0..self.live.len() {
            if live(self.live[place].outer) {
                place += 1;
            } else {
                let instance = self.live.remove(place);
                self.idle.push_reserved(instance.follower);
            }
        }
    }

    pub fn len(&self) -> usize
        ensures count { result ≡ length self.now.live }
        ensures few { length self.now.live + length self.now.idle ≤ self.now.room }
        ensures distinct { AreDistinct self.now.live }
    {
        self.live.len()
    }

    pub fn idle(&self) -> usize
        ensures { result ≡ length self.now.idle }
    {
        self.idle.len()
    }

    pub fn room(&self) -> u32
        ensures { result ≡ self.now.room }
    {
        self.room
    }
}
