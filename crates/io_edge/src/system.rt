//! One read or one write of the system, whose fault or end is counted.
ghost use Rattle.std.specs.Prelude.{◌≡◌, ◌<◌, ◌≤◌, length, IfOk};
ghost use Rattle.std.specs.Io.{ReadsAtMost, WritesAtMost};
ghost use Rattle.std.specs.Io.KnownBytes.{ReadConsumes, WriteAppends};
ghost use Rattle.io_edge.specs.Counts.{CountsFault, CountsRead, FailsByFault, next_count};

use crate::Failed;
use std::io::{Read, Write};

/// Reads once into a buffer that has room.
pub(crate) fn read_once<I: Read>(
    input: &mut I,
    buf: &mut [u8],
    faults: &mut u64,
    ends: &mut u64,
) -> Result<usize, Failed>
    ensures bound { ReadsAtMost result buf.new }
    ensures bytes { ReadConsumes (I.remaining input.old) (I.remaining input.new) result buf.new }
    ensures counts { CountsRead faults.old faults.new ends.old ends.new result (length buf.new) }
{
    let Ok(count) = input.read(buf) else {
        return Err(fault(faults));
    };
    if count == 0 {
        *ends = ends.saturating_add(1);
    }
    Ok(count)
}

/// Writes some bytes once. If the system takes none of them, the write has failed.
pub(crate) fn write_once<O: Write>(
    output: &mut O,
    bytes: &[u8],
    faults: &mut u64,
) -> Result<usize, Failed>
    ensures bound { WritesAtMost result bytes.now }
    ensures some { IfOk result (λ n. 0 < n) }
    ensures bytes { WriteAppends (O.contents output.old) (O.contents output.new) result bytes.now }
    ensures cause { FailsByFault faults.old faults.new result }
    ensures faults { CountsFault faults.old faults.new result }
{
    match output.write(bytes) {
        Ok(0) | Err(_) => Err(fault(faults)),
        Ok(count) => Ok(count),
    }
}

pub(crate) fn fault(faults: &mut u64) -> Failed
    ensures later { faults.old ≤ faults.new }
    ensures one_more { faults.new ≡ next_count faults.old }
{
    *faults = faults.saturating_add(1);
    Failed
}
