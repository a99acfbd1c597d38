//! A sink that takes every piece whole and counts its bytes.
ghost use Rattle.std.specs.Prelude.{◌≡◌, ◌<◌, ℕ, List, Option, None, Ok, length, IfOk, IsOk};
ghost use Rattle.std.specs.Io.{WritesAtMost};
ghost use Rattle.std.specs.Io.KnownBytes.{WriteAppends};
ghost use Rattle.io_edge.specs.Counts.{FailsByFault};
ghost use Rattle.io_edge.specs.Steady.{WritesSteadily};
ghost use Rattle.io_edge.specs.Written.{HoldsNoMore};

use crate::{Failed, Sink};
use std::marker::Model;

/// Keeps only the number of its bytes, and is seen as that number.
#[derive(Drop)]
pub struct SteadySink {
    count: u64,
}

impl Model for SteadySink {
    ghost use Rattle.std.specs.Prelude.{ℕ};

    ghost Value = { ℕ };

    ghost view = { λ s. s.count };
}

impl SteadySink {
    pub fn new() -> Self
        ensures { result ≡ 0 }
    {
        SteadySink { count: 0 }
    }

    /// How many bytes it took, at most `u64::MAX`.
    pub fn count(&self) -> u64
        ensures { result ≡ self.now }
    {
        self.count
    }
}

impl Sink for SteadySink {
    ghost taken = { λ _. None };

    ghost held = { λ _. 0 };

    ghost faults = { λ _. 0 };

    fn write(&mut self, bytes: &[u8]) -> Result<usize, Failed>
        ensures bound { WritesAtMost result bytes.now }
        ensures some { 0 < length bytes.now → IfOk result (λ n. 0 < n) }
        ensures bytes { WriteAppends None None result bytes.now }
        ensures held { HoldsNoMore 0 0 result }
        ensures cause { FailsByFault 0 0 result }
        ensures nothing { length bytes.now ≡ 0 → (result ≡ Ok 0) × (self.new ≡ self.old) }
        ensures steady { WritesSteadily self.old self.new result (length bytes.now) }
    {
        self.count = self.count.saturating_add(bytes.len() as u64);
        Ok(bytes.len())
    }

    fn flush(&mut self) -> Result<(), Failed>
        ensures { IsOk result × (self.new ≡ self.old) }
    {
        Ok(())
    }
}
