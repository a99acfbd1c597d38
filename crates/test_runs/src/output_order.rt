// What a source sees of a sink at each of its reads: the answers to all whole lines before it were
// flushed.
ghost use Rattle.std.specs.Prelude.{◌-◌, None, Some};

use crate::assertions::same;
use crate::fixtures::{SUM, words_of};
use io_edge::{Failed, MemorySource, Sink, Source, SteadySource};
use sqre_run::sqre;
use std::alloc::{AllocError, Global};
use std::cell::Cell;
use std::test::Fail;
use stream_run::Status;

// The most reads that are recorded.
const SEEN: usize = 8;

// Holds back every byte until it is flushed, and shows how many were flushed.
#[derive(Drop)]
struct HoldingSink<'a> {
    taken: usize,
    flushed: usize,
    shown: &'a Cell<usize>,
}

impl Sink for HoldingSink<'_> {
    ghost taken = { λ _. None };

    ghost held = { λ s. s.taken - s.flushed };

    ghost faults = { λ _. 0 };

    fn write(&mut self, bytes: &[u8]) -> Result<usize, Failed> {
        if !bytes.is_empty() {
            self.taken = self.taken.saturating_add(bytes.len());
        }
        Ok(bytes.len())
    }

    fn flush(&mut self) -> Result<(), Failed> {
        self.flushed = self.taken;
        self.shown.set(self.flushed);
        Ok(())
    }
}

// Records at each read how many bytes were flushed.
#[derive(Drop)]
struct LookingSource<'a> {
    source: MemorySource,
    shown: &'a Cell<usize>,
    reads: usize,
    seen: [usize; SEEN],
}

impl Source for LookingSource<'_> {
    ghost left = { λ s. Some s.source.left };

    ghost faults = { λ s. s.source.faults };

    ghost ends = { λ s. s.source.ends };

    fn read(&mut self, buf: &mut [u8]) -> Result<usize, Failed> {
        if buf.is_empty() {
            return Ok(0);
        }
        if let Some(seen) = self.seen.get_mut(self.reads) {
            *seen = self.shown.get();
        }
        self.reads = self.reads.saturating_add(1);
        self.source.read(buf)
    }
}

// How many bytes were flushed at each read of a run whose items are read in these pieces, and at
// its end.
fn seen_at_reads(alloc: Global, cuts: &[usize]) -> Result<([usize; SEEN], usize), AllocError> {
    let words = words_of(alloc, "run q -")?;
    let shown = Cell::new(0);
    let mut query = SteadySource::new(alloc, SUM)?;
    let mut items = LookingSource {
        source: MemorySource::new(alloc, b"5\n7\n-2\n", cuts, &[])?,
        shown: &shown,
        reads: 0,
        seen: [0; SEEN],
    };
    let mut out = HoldingSink {
        taken: 0,
        flushed: 0,
        shown: &shown,
    };
    match sqre(alloc, &words, &mut query, &mut items, &mut out) {
        Status::Done => Ok((items.seen, shown.get())),
        _ => Err(AllocError),
    }
}

// The answers are `5`, `12` and `10`, a line each.
#[test]
fn each_read_comes_after_the_answers_to_all_lines_before_it(rt: HostRuntime) -> Result<(), Fail> {
    let table: [(&[usize], [usize; SEEN]); 4] = [
        (&[1; 7], [0, 0, 2, 2, 5, 5, 5, 8]),
        (&[2, 2, 3], [0, 2, 5, 8, 0, 0, 0, 0]),
        (&[5], [0, 5, 8, 0, 0, 0, 0, 0]),
        (&[], [0, 8, 0, 0, 0, 0, 0, 0]),
    ];
    for (cuts, wanted) in table {
        let (seen, at_end) = seen_at_reads(rt.alloc(), cuts)?;
        same(&rt, (seen.as_slice(), at_end), (wanted.as_slice(), 8));
    }
    Ok(())
}
