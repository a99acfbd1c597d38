//! A sink over memory of a fixed size, whose writes may be cut short or fail.
ghost use Rattle.std.specs.Prelude.{◌≡◌, ◌<◌, ◌≤◌, ℕ, List, [], Option, Ok, Some, length, vec_len};
ghost use Rattle.std.specs.Prelude.{vec_capacity, IfOk, IsOk};
ghost use Rattle.std.specs.Io.{WritesAtMost};
ghost use Rattle.std.specs.Io.KnownBytes.{WriteAppends};
ghost use Rattle.io_edge.specs.Counts.{FailsByFault, next_count};
ghost use Rattle.io_edge.specs.Memory.{WritesFilled};
ghost use Rattle.io_edge.specs.Written.{HoldsNoMore};

use crate::cuts::room_at_call;
use crate::{Failed, Sink};
use std::alloc::{AllocError, Global};
use std::marker::Model;

/// All memory is reserved when it is made, so that no write can be out of memory.
#[derive(Drop)]
pub struct MemorySink {
    bytes: Vec<u8>,
    room: usize,
    cuts: Vec<usize>,
    fail_at: Vec<u64>,
    calls: u64,
    faults: u64,
}

impl Model for MemorySink {
    ghost use Rattle.std.specs.Prelude.{◌≤◌, vec_len, vec_capacity};
    ghost use Rattle.io_edge.specs.Memory.{Filled};

    ghost Value = { Filled };

    ghost view = { λ s. record {
      taken = s.bytes.items;
      room = s.room;
      cuts = s.cuts.items;
      fail_at = s.fail_at.items;
      calls = s.calls;
      faults = s.faults;
    } };

    ghost invariant = { λ s. (vec_len s.bytes ≤ s.room) × (s.room ≤ vec_capacity s.bytes) };
}

impl MemorySink {
    /// A sink whose writes are not cut short.
    pub fn new(alloc: Global, room: usize, fail_at: &[u64]) -> Result<Self, AllocError>
        ensures { IfOk result (λ s. s ≡ record {
          taken = [];
          room = room;
          cuts = [];
          fail_at = fail_at.now;
          calls = 0;
          faults = 0;
        }) }
    {
        MemorySink::with_cuts(alloc, room, &[], fail_at)
    }

    /// The k-th write takes at most `cuts[k - 1]` bytes, or one byte if that is zero.
    pub fn with_cuts(
        alloc: Global,
        room: usize,
        cuts: &[usize],
        fail_at: &[u64],
    ) -> Result<Self, AllocError>
        ensures { IfOk result (λ s. s ≡ record {
          taken = [];
          room = room;
          cuts = cuts.now;
          fail_at = fail_at.now;
          calls = 0;
          faults = 0;
        }) }
    {
        Ok(MemorySink {
            bytes: Vec::with_capacity(alloc, room)?,
            room,
            cuts: Vec::from_slice(alloc, cuts)?,
            fail_at: Vec::from_slice(alloc, fail_at)?,
            calls: 0,
            faults: 0,
        })
    }

    pub fn bytes(&self) -> &[u8]
        ensures { result.now ≡ self.now.taken }
    {
        self.bytes.as_slice()
    }

    fn fault(&mut self) -> Failed
        ensures { self.new ≡ record self.old { faults = next_count self.old.faults } }
    {
        self.faults = self.faults.saturating_add(1);
        Failed
    }
}

impl Sink for MemorySink {
    ghost taken = { λ s. Some s.taken };

    ghost held = { λ _. 0 };

    ghost faults = { λ s. s.faults };

    fn write(&mut self, bytes: &[u8]) -> Result<usize, Failed>
        ensures bound { WritesAtMost result bytes.now }
        ensures some { 0 < length bytes.now → IfOk result (λ n. 0 < n) }
        ensures bytes { WriteAppends (Some self.old.taken) (Some self.new.taken) result bytes.now }
        ensures held { HoldsNoMore 0 0 result }
        ensures cause { FailsByFault self.old.faults self.new.faults result }
        ensures nothing { length bytes.now ≡ 0 → (result ≡ Ok 0) × (self.new ≡ self.old) }
        ensures filled { 0 < length bytes.now →
            WritesFilled self.old self.new result (length bytes.now) }
    {
        if bytes.is_empty() {
            return Ok(0);
        }
        let most = room_at_call(&self.cuts, self.calls, bytes.len());
        self.calls = self.calls.saturating_add(1);
        if self.fail_at.contains(&self.calls) {
            return Err(self.fault());
        }
        let count = most.min(self.room - self.bytes.len());
        if count == 0 {
            return Err(self.fault());
        }
        if self.bytes.extend_from_slice(&bytes[..count]).is_err() {
            unreachable!();
        }
        Ok(count)
    }

    fn flush(&mut self) -> Result<(), Failed>
        ensures { IsOk result × (self.new ≡ self.old) }
    {
        Ok(())
    }
}
