//! A source over bytes in memory, whose reads may be cut short or fail.
ghost use Rattle.std.specs.Prelude.{◌≡◌, ◌<◌, ℕ, List, Option, Ok, Some, length, IfOk};
ghost use Rattle.std.specs.Io.{ReadsAtMost};
ghost use Rattle.std.specs.Io.KnownBytes.{ReadConsumes};
ghost use Rattle.io_edge.specs.Counts.{FailsByFault, EndsByEnd};
ghost use Rattle.io_edge.specs.Memory.{ReadsHeld};

use crate::cuts::room_at_call;
use crate::remaining_bytes::Remaining;
use crate::{Failed, Source};
use std::alloc::{AllocError, Global};
use std::marker::Model;

#[derive(Drop)]
pub struct MemorySource {
    remaining: Remaining,
    cuts: Vec<usize>,
    fail_at: Vec<u64>,
    calls: u64,
    faults: u64,
    ends: u64,
}

impl Model for MemorySource {
    ghost use Rattle.io_edge.specs.Memory.{Held};

    ghost Value = { Held };

    ghost view = { λ s. record {
      left = s.remaining;
      cuts = s.cuts.items;
      fail_at = s.fail_at.items;
      calls = s.calls;
      faults = s.faults;
      ends = s.ends;
    } };
}

impl MemorySource {
    pub fn new(
        alloc: Global,
        bytes: &[u8],
        cuts: &[usize],
        fail_at: &[u64],
    ) -> Result<Self, AllocError>
        ensures { IfOk result (λ s. s ≡ record {
          left = bytes.now;
          cuts = cuts.now;
          fail_at = fail_at.now;
          calls = 0;
          faults = 0;
          ends = 0;
        }) }
    {
        Ok(MemorySource {
            remaining: Remaining::new(alloc, bytes)?,
            cuts: Vec::from_slice(alloc, cuts)?,
            fail_at: Vec::from_slice(alloc, fail_at)?,
            calls: 0,
            faults: 0,
            ends: 0,
        })
    }
}

impl Source for MemorySource {
    ghost left = { λ s. Some s.left };

    ghost faults = { λ s. s.faults };

    ghost ends = { λ s. s.ends };

    fn read(&mut self, buf: &mut [u8]) -> Result<usize, Failed>
        ensures bound { ReadsAtMost result buf.new }
        ensures bytes { ReadConsumes (Some self.old.left) (Some self.new.left) result buf.new }
        ensures cause { FailsByFault self.old.faults self.new.faults result }
        ensures end { EndsByEnd self.old.ends self.new.ends result (length buf.new) }
        ensures no_room { length buf.new ≡ 0 → (result ≡ Ok 0) × (self.new ≡ self.old) }
        ensures held { 0 < length buf.new → ReadsHeld self.old self.new result (length buf.new) }
    {
        if buf.is_empty() {
            return Ok(0);
        }
        let most = room_at_call(&self.cuts, self.calls, buf.len());
        self.calls = self.calls.saturating_add(1);
        if self.fail_at.contains(&self.calls) {
            self.faults = self.faults.saturating_add(1);
            return Err(Failed);
        }
        let given = self.remaining.give(most, buf);
        if given == 0 {
            self.ends = self.ends.saturating_add(1);
        }
        Ok(given)
    }
}
