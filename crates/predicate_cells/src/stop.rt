//! Why a stream cannot be parted into cells.

use std::alloc::AllocError;

#[derive(Clone, Copy, Debug, PartialEq, Eq)]
pub enum CellStop {
    /// There would be more than 4,096 cells.
    TooMany,
    Memory,
}

impl From<AllocError> for CellStop {
    ghost use Rattle.std.specs.Prelude.{◌≡◌};
    ghost use Rattle.predicate_cells.specs.declared.stop.CellStop.TheVariants.{Memory};

    ghost from_gives = { λ _ stop. stop ≡ Memory };

    fn from(_error: AllocError) -> CellStop {
        CellStop::Memory
    }
}
