//! A source over a reader.
ghost use Rattle.std.specs.Prelude.{◌≡◌, ◌<◌, ℕ, List, Option, None, Some, Ok, length};
ghost use Rattle.std.specs.Io.{ReadsAtMost};
ghost use Rattle.std.specs.Io.KnownBytes.{ReadConsumes};
ghost use Rattle.io_edge.specs.Counts.{EndsByEnd, FailsByFault};
ghost use Rattle.io_edge.specs.Readers.{ClosesAtEnd, left_of};

use crate::system::read_once;
use crate::{Failed, Source};
use std::io::Read;
use std::marker::Model;

/// Reads to the first end of the reader, and closes it there.
#[derive(Drop)]
pub struct ReaderSource<I: Read + Drop> {
    input: Option<I>,
    faults: u64,
    ends: u64,
}

impl<I: Read + Drop> Model for ReaderSource<I> {
    ghost use Rattle.io_edge.specs.Readers.{ClosesAtEnd, ReaderState};

    ghost Value = { ReaderState I };

    ghost view = { λ s. record { input = s.input; faults = s.faults; ends = s.ends } };

    ghost invariant = { λ s. ClosesAtEnd (record {
      input = s.input;
      faults = s.faults;
      ends = s.ends;
    }) };
}

impl<I: Read + Drop> ReaderSource<I> {
    /// A source over a reader that was just opened. Opening it may have taken several tries, and
    /// `faults` counts those that failed.
    pub fn new(input: I, faults: u64) -> Self
        ensures { result ≡ record { input = Some input; faults = faults; ends = 0 } }
    {
        ReaderSource {
            input: Some(input),
            faults,
            ends: 0,
        }
    }
}

impl<I: Read + Drop> Source for ReaderSource<I> {
    ghost left = { λ s. left_of I.remaining s.input };

    ghost faults = { λ s. s.faults };

    ghost ends = { λ s. s.ends };

    fn read(&mut self, buf: &mut [u8]) -> Result<usize, Failed>
        ensures bound { ReadsAtMost result buf.new }
        ensures bytes { ReadConsumes (left_of I.remaining self.old.input)
            (left_of I.remaining self.new.input) result buf.new }
        ensures cause { FailsByFault self.old.faults self.new.faults result }
        ensures end { EndsByEnd self.old.ends self.new.ends result (length buf.new) }
        ensures no_room { length buf.new ≡ 0 → (result ≡ Ok 0) × (self.new ≡ self.old) }
        ensures closed { 0 < length buf.new → ClosesAtEnd self.new }
        ensures again { 0 < self.old.ends → result ≡ Ok 0 }
    {
        if buf.is_empty() {
            return Ok(0);
        }
        let Some(input) = &mut self.input else {
            self.ends = self.ends.saturating_add(1);
            return Ok(0);
        };
        let count = read_once(input, buf, &mut self.faults, &mut self.ends)?;
        if count == 0 {
            self.input = None;
        }
        Ok(count)
    }
}
