//! A buffer of a fixed size for bytes that wait to be written.
ghost use Rattle.std.specs.Prelude.{◌≡◌, ◌<◌, ◌≤◌, ◌-◌, ◌++◌, [], length, take, drop, min, IfOk};
ghost use Rattle.std.specs.Prelude.{OnOk, vec_len, vec_capacity};
ghost use Rattle.std.specs.Io.{WritesAtMost};
ghost use Rattle.std.specs.Io.KnownBytes.{Keeps, WriteAppends, append_known};
ghost use Rattle.io_edge.specs.Counts.{FailsByFault};
ghost use Rattle.io_edge.specs.Limits.{max_held};
ghost use Rattle.io_edge.specs.Written.{Flushes, HoldsNoMore};

use crate::Failed;
use crate::system::write_once;
use std::alloc::{AllocError, Global};
use std::io::Write;
use std::marker::Model;

const MAX_HELD: usize = 65_536;

#[derive(Drop)]
pub(crate) struct HeldBytes {
    bytes: Vec<u8>,
}

impl Model for HeldBytes {
    ghost use Rattle.std.specs.Prelude.{◌≤◌, List, ℕ, vec_len, vec_capacity};
    ghost use Rattle.io_edge.specs.Limits.{max_held};

    ghost Value = { List ℕ };

    ghost view = { λ h. h.bytes.items };

    ghost invariant = { λ h. (vec_len h.bytes ≤ max_held) × (max_held ≤ vec_capacity h.bytes) };
}

impl HeldBytes {
    /// Reserves all memory that it will ever need, so that no later call can be out of memory.
    pub(crate) fn new(alloc: Global) -> Result<HeldBytes, AllocError>
        ensures { IfOk result (λ held. held ≡ []) }
    {
        Ok(HeldBytes {
            bytes: Vec::with_capacity(alloc, MAX_HELD)?,
        })
    }

    /// Holds as many of the first bytes as fit. If they do not all fit, the bytes held before are
    /// flushed first.
    pub(crate) fn take<O: Write>(
        &mut self,
        bytes: &[u8],
        output: &mut O,
        faults: &mut u64,
    ) -> Result<usize, Failed>
        ensures bound { WritesAtMost result bytes.now }
        ensures some { 0 < length bytes.now → IfOk result (λ n. 0 < n) }
        ensures bytes { WriteAppends (append_known (O.contents output.old) self.old)
            (append_known (O.contents output.new) self.new) result bytes.now }
        ensures held { HoldsNoMore (length self.old) (length self.new) result }
        ensures cause { FailsByFault faults.old faults.new result }
    {
        self.make_room(bytes.len(), output, faults)?;
        Ok(self.hold(bytes))
    }

    /// Flushes all bytes in their order. After a fault, those that were not written are still held.
    pub(crate) fn flush_all<O: Write>(
        &mut self,
        output: &mut O,
        faults: &mut u64,
    ) -> Result<(), Failed>
        ensures bytes { Keeps (append_known (O.contents output.old) self.old)
            (append_known (O.contents output.new) self.new) }
        ensures held { Flushes (length self.old) (length self.new) result }
        ensures cause { FailsByFault faults.old faults.new result }
    {
        'pieces: while !self.bytes.is_empty() {
            let count = write_once(output, &self.bytes, faults)?;
            remove_front(&mut self.bytes, count);
        }
        Ok(())
    }

    /// Flushes all bytes if `count` more do not fit.
    fn make_room<O: Write>(
        &mut self,
        count: usize,
        output: &mut O,
        faults: &mut u64,
    ) -> Result<(), Failed>
        ensures room { OnOk result (0 < count → length self.new < max_held) }
        ensures bytes { Keeps (append_known (O.contents output.old) self.old)
            (append_known (O.contents output.new) self.new) }
        ensures fewer { length self.new ≤ length self.old }
        ensures cause { FailsByFault faults.old faults.new result }
    {
        if count <= MAX_HELD - self.bytes.len() {
            return Ok(());
        }
        self.flush_all(output, faults)
    }

    fn hold(&mut self, bytes: &[u8]) -> usize
        ensures count { result ≡ min (length bytes.now) (max_held - length self.old) }
        ensures bytes { self.new ≡ self.old ++ take result bytes.now }
    {
        let count = bytes.len().min(MAX_HELD - self.bytes.len());
        if self.bytes.extend_from_slice(&bytes[..count]).is_err() {
            unreachable!()
        }
        count
    }
}

fn remove_front(bytes: &mut Vec<u8>, count: usize)
    requires { count ≤ vec_len bytes.old }
    ensures rest { bytes.new.items ≡ drop count bytes.old.items }
    ensures room { vec_capacity bytes.new ≡ vec_capacity bytes.old }
{
    let rest = bytes.len() - count;
    bytes.copy_within(count.., 0);
    bytes.truncate(rest);
}
