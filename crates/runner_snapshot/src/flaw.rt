//! Why a snapshot is refused.
use std::alloc::{AllocError, AllocFailed};

/// What is wrong with a snapshot. Its form is asked for before its query: first `Long`, then
/// `Head`, `Form`, `Query` and `Unfit`.
#[derive(Clone, Copy, Debug, PartialEq, Eq)]
pub enum Flaw {
    /// It has too many bytes.
    Long = 1,
    /// It does not begin as a snapshot does.
    Head,
    /// Its query text is refused.
    Query,
    /// Its bytes are not those of a snapshot.
    Form,
    /// Its dump does not fit its query.
    Unfit,
}

/// Why there is no snapshot, or nothing that is resumed from it.
#[derive(Clone, Copy, Debug, PartialEq, Eq)]
pub enum SnapStop {
    Bad(Flaw),
    Memory,
}

impl From<AllocError> for SnapStop {
    ghost use Rattle.std.specs.Prelude.{◌≡◌};
    ghost use Rattle.runner_snapshot.specs.declared.flaw.SnapStop.TheVariants.{Memory};

    ghost from_gives = { λ _ stop. stop ≡ Memory };

    fn from(_error: AllocError) -> SnapStop {
        SnapStop::Memory
    }
}

impl<T: Drop> From<AllocFailed<T>> for SnapStop {
    ghost use Rattle.std.specs.Prelude.{◌≡◌};
    ghost use Rattle.runner_snapshot.specs.declared.flaw.SnapStop.TheVariants.{Memory};

    ghost from_gives = { λ _ stop. stop ≡ Memory };

    fn from(_error: AllocFailed<T>) -> SnapStop {
        SnapStop::Memory
    }
}
