//! Answers are flushed before the next read. A sink with little room shows that.
ghost use Rattle.std.specs.Prelude.{◌≡◌, ◌≤◌, ◌-◌, ℕ, List, [], Some, length, vec_len, IfSome};
ghost use Rattle.std.specs.Io.KnownBytes.{Consumes};
ghost use Rattle.io_edge.specs.Counts.{FailsBy};
ghost use Rattle.sqre_run.specs.Call.{Runs};
ghost use Rattle.stream_run.specs.Meanings.{IsMeaning, Meaning};
ghost use Rattle.sqre_run.specs.Spoken.{answering, whole_output};

use crate::sqre;
use io_edge::{Failed, Sink, Source};
use std::alloc::{AllocError, Global};
use stream_run::Status;

/// Holds all bytes back until it is flushed. It flushes `ROOM` bytes in all, and then fails.
#[derive(Drop)]
struct RoomSink<const ROOM: usize> {
    bytes: Vec<u8>,
    flushed: usize,
    faults: u64,
    ghost room: { flushed ≤ ROOM },
    ghost within: { flushed ≤ vec_len bytes },
}

impl<const ROOM: usize> RoomSink<ROOM> {
    fn new(alloc: Global) -> Self
        ensures { (result.bytes.items ≡ []) × (result.flushed ≡ 0) }
    {
        RoomSink {
            bytes: Vec::new(alloc),
            flushed: 0,
            faults: 0,
        }
    }
}

impl<const ROOM: usize> Sink for RoomSink<ROOM> {
    ghost taken = { λ s. Some s.bytes.items };

    ghost held = { λ s. vec_len s.bytes - s.flushed };

    ghost faults = { λ s. s.faults };

    fn write(&mut self, bytes: &[u8]) -> Result<usize, Failed> {
        if bytes.is_empty() {
            return Ok(0);
        }
        match self.bytes.extend_from_slice(bytes) {
            Ok(()) => Ok(bytes.len()),
            Err(AllocError) => {
                self.faults = self.faults.saturating_add(1);
                Err(Failed)
            }
        }
    }

    fn flush(&mut self) -> Result<(), Failed> {
        if self.bytes.len() > ROOM {
            self.faults = self.faults.saturating_add(1);
            return Err(Failed);
        }
        self.flushed = self.bytes.len();
        Ok(())
    }
}

/// A run into a sink that flushes `ROOM` bytes in all. If a read of the items fails, the answers to
/// all whole lines that were taken by then had room and were flushed, since no read comes while an
/// answer is held back.
pub fn run_into_room<const ROOM: usize, Q: Source, S: Source>(
    alloc: Global,
    words: &[String],
    query: &mut Q,
    items: &mut S,
) -> Status
    ensures fault { FailsBy (S.faults items.old) (S.faults items.new)
        (result ≡ Status.ItemFault) }
    ensures had_room { result ≡ Status.ItemFault → IfSome (Q.left query.old) (λ text.
        Runs text (λ monitor.
        (got : List ℕ) × Consumes (S.left items.old) (S.left items.new) got
        × ((meaning : Meaning) → IsMeaning monitor meaning
        → length (whole_output (answering meaning) got) ≤ ROOM))) }
{
    let mut out = RoomSink::<ROOM>::new(alloc);
    sqre(alloc, words, query, items, &mut out)
}
