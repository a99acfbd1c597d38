//! The cuts of a source or a sink in memory: how many bytes each of its calls takes at most.
ghost use Rattle.std.specs.Prelude.{◌≡◌};
ghost use Rattle.io_edge.specs.Memory.{room_at_call};

/// A cut of 0 counts as 1, since a call that takes nothing means the end or a fault.
pub(crate) fn room_at_call(cuts: &[usize], calls: u64, room: usize) -> usize
    ensures { result ≡ room_at_call cuts.now calls room }
{
    match cuts.get(calls as usize) {
        Some(&cut) => room.min(cut.max(1)),
        None => room,
    }
}
