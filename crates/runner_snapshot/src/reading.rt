//! Reads snapshots.
ghost use Rattle.std.specs.Prelude.{◌≡◌, ◌≤◌, ◌++◌, IfErr, IfNone, IfOk, IfSome, length};
ghost use Rattle.runner_snapshot.specs.Bytes.{head, snapshot_bytes};
ghost use Rattle.runner_snapshot.specs.Ranges.{IsSnapshot};
ghost use Rattle.runner_snapshot.specs.Reading.{body_at, Gives};
ghost use Rattle.runner_snapshot.specs.Saved.{snapshot_of};
ghost use Rattle.runner_snapshot.specs.Stops.{HasHead, IsStopOf, max_snapshot};

use crate::node_reader::MAX_LEVELS;
use crate::reader::Reader;
use crate::{Flaw, Saved, SnapStop};
use std::alloc::Global;
use value_ops::Bytes;

/// The bytes of a snapshot, at the most.
pub const MAX_SNAPSHOT: usize = 67_108_864;

/// What each snapshot begins with.
pub(crate) const HEAD: [u8; 8] = [b'S', b'Q', b'R', b'E', b'0', b'0', b'0', b'1'];

// The bytes after the head, if they begin with it.
fn after_head(bytes: &[u8]) -> Option<&[u8]>
    ensures some { IfSome result (λ rest. bytes.now ≡ head ++ rest.now) }
    ensures none { IfNone result (HasHead bytes.now → ⊥) }
{
    bytes.strip_prefix(HEAD.as_slice())
}

impl Reader<'_> {
    #[tactic(auto, unfolding(crate::specs::Reading::body_at, crate::specs::Ranges::max_levels))]
    fn body(&mut self, alloc: Global) -> Result<Saved, SnapStop>
        ensures { Gives snapshot_of result self.new.rest.now (body_at self.old.rest.now) }
    {
        let text = Bytes::from_slice(alloc, self.query_text()?)?;
        let began = self.flag()?;
        let dump = Box::new(alloc, self.runner(alloc, MAX_LEVELS)?)?;
        Ok(Saved::new(text, began, dump))
    }
}

/// The snapshot that the bytes are.
pub fn read_saved(alloc: Global, bytes: &[u8]) -> Result<Saved, SnapStop>
    ensures read { IfOk result (λ saved. IsSnapshot (snapshot_of saved)
        × (bytes.now ≡ snapshot_bytes (snapshot_of saved))) }
    ensures few { IfOk result (λ _. length bytes.now ≤ max_snapshot) }
    ensures stopped { IfErr result (IsStopOf bytes.now) }
{
    if bytes.len() > MAX_SNAPSHOT {
        return Err(SnapStop::Bad(Flaw::Long));
    }
    let Some(rest) = after_head(bytes) else {
        return Err(SnapStop::Bad(Flaw::Head));
    };
    let mut reader = Reader { rest };
    let saved = reader.body(alloc)?;
    if !reader.rest.is_empty() {
        return Err(SnapStop::Bad(Flaw::Form));
    }
    Ok(saved)
}
