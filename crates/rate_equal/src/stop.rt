//! Why two rates are not compared.

use std::alloc::{AllocError, AllocFailed};

#[derive(Clone, Copy, Debug, PartialEq, Eq)]
pub enum EqualStop {
    /// Words lead to more than 4,096 states, or pairs of states.
    Reach,
    Memory,
}

impl From<AllocError> for EqualStop {
    ghost use Rattle.std.specs.Prelude.{◌≡◌};
    ghost use Rattle.rate_equal.specs.declared.stop.EqualStop.TheVariants.{Memory};

    ghost from_gives = { λ _ stop. stop ≡ Memory };

    fn from(_error: AllocError) -> EqualStop {
        EqualStop::Memory
    }
}

impl<T: Drop> From<AllocFailed<T>> for EqualStop {
    ghost use Rattle.std.specs.Prelude.{◌≡◌};
    ghost use Rattle.rate_equal.specs.declared.stop.EqualStop.TheVariants.{Memory};

    ghost from_gives = { λ _ stop. stop ≡ Memory };

    fn from(_failed: AllocFailed<T>) -> EqualStop {
        EqualStop::Memory
    }
}
