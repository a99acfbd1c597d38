//! A source that gives more bytes after an end, as a terminal may.
ghost use Rattle.std.specs.Prelude.{None};

use io_edge::{Failed, Source, SteadySource};
use std::alloc::{AllocError, Global};
use std::mem;

#[derive(Drop)]
pub struct ResumedSource {
    remaining: SteadySource,
    after: SteadySource,
    pub ends: u64,
}

impl ResumedSource {
    pub fn new(alloc: Global, before: &[u8], after: &[u8]) -> Result<Self, AllocError> {
        Ok(ResumedSource {
            remaining: SteadySource::new(alloc, before)?,
            after: SteadySource::new(alloc, after)?,
            ends: 0,
        })
    }
}

impl Source for ResumedSource {
    ghost left = { λ _. None };

    ghost faults = { λ _. 0 };

    ghost ends = { λ s. s.ends };

    fn read(&mut self, buf: &mut [u8]) -> Result<usize, Failed> {
        if buf.is_empty() {
            return Ok(0);
        }
        let given = self.remaining.read(buf)?;
        if given == 0 {
            self.ends = self.ends.saturating_add(1);
            mem::swap(&mut self.remaining, &mut self.after);
        }
        Ok(given)
    }
}
