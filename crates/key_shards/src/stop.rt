//! Why a collect has no query for its shards.

use std::alloc::AllocError;

#[derive(Clone, Copy, Debug, PartialEq, Eq)]
pub enum PartStop {
    /// It would keep more slots than a query may.
    TooLarge,
    Memory,
}

impl From<AllocError> for PartStop {
    ghost use Rattle.std.specs.Prelude.{◌≡◌};
    ghost use Rattle.key_shards.specs.declared.stop.PartStop.TheVariants.{Memory};

    ghost from_gives = { λ _ stop. stop ≡ Memory };

    fn from(_error: AllocError) -> PartStop {
        PartStop::Memory
    }
}
