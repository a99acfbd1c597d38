//! The starts of atoms and the values that wait are put back.
ghost use Rattle.std.specs.Prelude.{◌≡◌, ◌≤◌, IfOk, length, map};
ghost use Rattle.eval_snapshot.specs.Dumped.{start_in};
ghost use Rattle.eval_snapshot.specs.Means.{held_entry};
ghost use Rattle.restored_nodes.specs.Rooms.{AreFewWaiting};

use runner_snapshot::{Entries, Starts};
use split_eval::Pending;
use std::alloc::{AllocError, Global};
use value_ops::Value;

/// The start, if there is one.
pub(crate) fn restored_start(starts: &Starts) -> Option<u64>
    requires { length starts.now ≤ 1 }
    ensures { start_in result ≡ starts.now }
{
    if starts.len() == 0 {
        return None;
    }
    Some(starts.get(0))
}

/// The entries, in a list with so much room.
pub(crate) fn restored_entries(
    alloc: Global,
    room: u32,
    entries: &Entries,
) -> Result<Pending<Value>, AllocError>
    requires { AreFewWaiting room entries.now }
    ensures { IfOk result (λ held. held
        ≡ record { entries = map held_entry entries.now; room = room }) }
{
    let mut held = Pending::new(alloc, room)?;
    'entries: for i in 0..entries.len() {
        let (inner, outer, value) = entries.get(i);
        held.put(inner, outer, value.try_copy(alloc)?);
    }
    Ok(held)
}
