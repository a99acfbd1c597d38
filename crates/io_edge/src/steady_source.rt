//! A source over bytes in memory that never fails, and whose reads fill the buffer while bytes are
//! left.
ghost use Rattle.std.specs.Prelude.{◌≡◌, ◌<◌, ℕ, List, Option, Ok, Some, length, IfOk};
ghost use Rattle.std.specs.Io.{ReadsAtMost};
ghost use Rattle.std.specs.Io.KnownBytes.{ReadConsumes};
ghost use Rattle.io_edge.specs.Counts.{FailsByFault, EndsByEnd};
ghost use Rattle.io_edge.specs.Steady.{ReadsSteadily};

use crate::remaining_bytes::Remaining;
use crate::{Failed, Source};
use std::alloc::{AllocError, Global};
use std::marker::Model;

#[derive(Drop)]
pub struct SteadySource {
    remaining: Remaining,
    ends: u64,
}

impl Model for SteadySource {
    ghost use Rattle.io_edge.specs.Steady.{Unread};

    ghost Value = { Unread };

    ghost view = { λ s. record { left = s.remaining; ends = s.ends } };
}

impl SteadySource {
    pub fn new(alloc: Global, bytes: &[u8]) -> Result<Self, AllocError>
        ensures { IfOk result (λ s. s ≡ record { left = bytes.now; ends = 0 }) }
    {
        Ok(SteadySource {
            remaining: Remaining::new(alloc, bytes)?,
            ends: 0,
        })
    }
}

impl Source for SteadySource {
    ghost left = { λ s. Some s.left };

    ghost faults = { λ _. 0 };

    ghost ends = { λ s. s.ends };

    fn read(&mut self, buf: &mut [u8]) -> Result<usize, Failed>
        ensures bound { ReadsAtMost result buf.new }
        ensures bytes { ReadConsumes (Some self.old.left) (Some self.new.left) result buf.new }
        ensures cause { FailsByFault 0 0 result }
        ensures end { EndsByEnd self.old.ends self.new.ends result (length buf.new) }
        ensures no_room { length buf.new ≡ 0 → (result ≡ Ok 0) × (self.new ≡ self.old) }
        ensures steady { 0 < length buf.new →
            ReadsSteadily self.old self.new result (length buf.new) }
    {
        if buf.is_empty() {
            return Ok(0);
        }
        let given = self.remaining.give(buf.len(), buf);
        if given == 0 {
            self.ends = self.ends.saturating_add(1);
        }
        Ok(given)
    }
}
