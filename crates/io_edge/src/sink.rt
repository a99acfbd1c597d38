//! What every sink of bytes has in common.
ghost use Rattle.std.specs.Prelude.{◌≡◌, ◌<◌, ◌≤◌, ◌+◌, ℕ, List, Option, Ok, length, IfOk};
ghost use Rattle.std.specs.Prelude.{MatchResult};
ghost use Rattle.std.specs.Io.{WritesAtMost};
ghost use Rattle.std.specs.Io.KnownBytes.{WriteAppends, Appends};
ghost use Rattle.io_edge.specs.Counts.{FailsByFault};
ghost use Rattle.io_edge.specs.Written.{AppendsSome, Flushes, HoldsNoMore};

use crate::Failed;

pub trait Sink {
    /// The bytes that it took, if they are known.
    ghost taken: { Self → Option (List ℕ) };

    /// How many of the last bytes that it took are not flushed yet.
    ghost held: { Self → ℕ };

    /// How often it has failed, at most 2^64-1.
    ghost faults: { Self → ℕ };

    /// Takes some of the first bytes, at least one if there are any. They may wait for a flush.
    fn write(&mut self, bytes: &[u8]) -> Result<usize, Failed>
        ensures bound { WritesAtMost result bytes.now }
        ensures some { 0 < length bytes.now → IfOk result (λ n. 0 < n) }
        ensures bytes { WriteAppends (taken self.old) (taken self.new) result bytes.now }
        ensures held { HoldsNoMore (held self.old) (held self.new) result }
        ensures cause { FailsByFault (faults self.old) (faults self.new) result }
        ensures nothing { length bytes.now ≡ 0 → (result ≡ Ok 0) × (self.new ≡ self.old) };

    /// Flushes all bytes that it took.
    fn flush(&mut self) -> Result<(), Failed>
        ensures taken { taken self.new ≡ taken self.old }
        ensures held { Flushes (held self.old) (held self.new) result }
        ensures cause { FailsByFault (faults self.old) (faults self.new) result };
}

/// Writes all bytes. After a fault, some of the first bytes were written.
pub fn write_all<W: Sink>(out: &mut W, bytes: &[u8]) -> Result<(), Failed>
    ensures written { MatchResult result
        (λ _. Appends (W.taken out.old) (W.taken out.new) bytes.now)
        (λ _. AppendsSome (W.taken out.old) (W.taken out.new) bytes.now) }
    ensures held { W.held out.new ≤ W.held out.old + length bytes.now }
    ensures cause { FailsByFault (W.faults out.old) (W.faults out.new) result }
{
    let mut done = 0;
    'pieces: while done < bytes.len() {
        done += out.write(&bytes[done..])?;
    }
    Ok(())
}
