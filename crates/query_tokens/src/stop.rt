//! Why tokens cannot be read.

use std::alloc::AllocError;

#[derive(Clone, Copy, Debug, PartialEq, Eq)]
pub enum TokenStop {
    /// No token begins at this place.
    Fault(u32),
    Memory,
}

impl From<AllocError> for TokenStop {
    ghost use Rattle.std.specs.Prelude.{◌≡◌};
    ghost use Rattle.query_tokens.specs.declared.stop.TokenStop.TheVariants.{Memory};

    ghost from_gives = { λ _ stop. stop ≡ Memory };

    fn from(_error: AllocError) -> Self {
        TokenStop::Memory
    }
}
