//! What holds of every snapshot.
ghost use Rattle.std.specs.Prelude.{◌≡◌};
ghost use Rattle.runner_snapshot.specs.Bytes.{Snapshot, snapshot_bytes};
ghost use Rattle.runner_snapshot.specs.Ranges.{IsSnapshot};

/// Two snapshots with the same bytes are the same.
pub fn snapshots_have_one_spelling()
    ensures { (first second : Snapshot) → IsSnapshot first → IsSnapshot second
        → snapshot_bytes first ≡ snapshot_bytes second → first ≡ second }
{}
