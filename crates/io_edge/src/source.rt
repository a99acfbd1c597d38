//! What every source of bytes has in common.
ghost use Rattle.std.specs.Prelude.{◌≡◌, ℕ, List, Option, Ok, length};
ghost use Rattle.std.specs.Io.{ReadsAtMost};
ghost use Rattle.std.specs.Io.KnownBytes.{ReadConsumes};
ghost use Rattle.io_edge.specs.Counts.{FailsByFault, EndsByEnd};

/// A read or a write failed. The object has counted it as a fault.
#[derive(Clone, Copy, Debug, PartialEq, Eq)]
pub struct Failed;

pub trait Source {
    /// The bytes that are still to be read, if they are known.
    ghost left: { Self → Option (List ℕ) };

    /// How often it has failed, at most 2^64-1.
    ghost faults: { Self → ℕ };

    /// How often it has met the end of its input, at most 2^64-1.
    ghost ends: { Self → ℕ };

    /// Reads the next bytes into the front of `buf`. If it has room and 0 bytes are read, the input
    /// has ended.
    fn read(&mut self, buf: &mut [u8]) -> Result<usize, Failed>
        ensures bound { ReadsAtMost result buf.new }
        ensures bytes { ReadConsumes (left self.old) (left self.new) result buf.new }
        ensures cause { FailsByFault (faults self.old) (faults self.new) result }
        ensures end { EndsByEnd (ends self.old) (ends self.new) result (length buf.new) }
        ensures no_room { length buf.new ≡ 0 → (result ≡ Ok 0) × (self.new ≡ self.old) };
}
