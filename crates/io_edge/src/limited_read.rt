//! Reading a whole source, up to a number of bytes.
ghost use Rattle.std.specs.Prelude.{◌≡◌, ◌≤◌, [], length, min, IfOk, IsErrOf, OnErr, OnOk};
ghost use Rattle.std.specs.Vec.{vec_capacity};
ghost use Rattle.io_edge.specs.Counts.{FailsBy, FailsByFault};
ghost use Rattle.io_edge.specs.Taken.{TakesFewer, TakesFirst};

use crate::{Failed, Source};
use std::alloc::Global;
use std::cmp::min;

/// How many bytes are read at once.
const PIECE: usize = 65_536;

/// Why the bytes were not read.
#[derive(Clone, Copy, Debug, PartialEq, Eq)]
pub enum TakeStop {
    /// The source failed.
    Failed,
    /// Out of memory: room for `limit` bytes is reserved before the first read.
    Memory,
}

/// Reads up to the first end of the source, or until `limit` bytes were taken.
pub fn read_to_limit<S: Source>(
    alloc: Global,
    source: &mut S,
    limit: usize,
) -> Result<Vec<u8>, TakeStop>
    ensures taken { IfOk result (λ bytes. TakesFirst limit (S.left source.old) (S.left source.new)
        (S.ends source.old) (S.ends source.new) bytes.items) }
    ensures failed { IsErrOf result TakeStop.Failed → TakesFewer limit
        (S.left source.old) (S.left source.new) (S.ends source.old) (S.ends source.new) }
    ensures memory { IsErrOf result TakeStop.Memory → source.new ≡ source.old }
    ensures cause { FailsBy (S.faults source.old) (S.faults source.new)
        (IsErrOf result TakeStop.Failed) }
{
    let Ok(mut bytes) = Vec::with_capacity(alloc, limit) else {
        return Err(TakeStop::Memory);
    };
    let Ok(mut piece) = vec![in alloc; 0; min(limit, PIECE)] else {
        return Err(TakeStop::Memory);
    };
    match fill(source, &mut piece, limit, &mut bytes) {
        Ok(()) => Ok(bytes),
        Err(Failed) => Err(TakeStop::Failed),
    }
}

// Reads pieces into the bytes, up to the first end or until `limit` are there.
fn fill<S: Source>(
    source: &mut S,
    piece: &mut [u8],
    limit: usize,
    bytes: &mut Vec<u8>,
) -> Result<(), Failed>
    requires none { bytes.old.items ≡ [] }
    requires reserved { limit ≤ vec_capacity bytes.old }
    requires piece { length piece.old ≡ min limit 65536 }
    ensures taken { OnOk result (TakesFirst limit (S.left source.old) (S.left source.new)
        (S.ends source.old) (S.ends source.new) bytes.new.items) }
    ensures failed { OnErr result (TakesFewer limit
        (S.left source.old) (S.left source.new) (S.ends source.old) (S.ends source.new)) }
    ensures cause { FailsByFault (S.faults source.old) (S.faults source.new) result }
{
    'pieces: while bytes.len() < limit {
        let room = min(piece.len(), limit - bytes.len());
        let count = source.read(&mut piece[..room])?;
        if count == 0 {
            return Ok(());
        }
        // There is room for `limit` bytes.
        if bytes.extend_from_slice(&piece[..count]).is_err() {
            unreachable!()
        }
    }
    Ok(())
}
