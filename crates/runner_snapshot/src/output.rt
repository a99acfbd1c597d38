//! What the bytes of a snapshot go to: a vector, or only their count.
ghost use Rattle.std.specs.Prelude.{◌≡◌, OnOk};
ghost use Rattle.runner_snapshot.specs.Got.{Gets};

use std::alloc::AllocError;

/// What takes bytes, one after the other.
pub(crate) trait Output {
    ghost use Rattle.std.specs.Prelude.{List, ℕ};

    /// What it got until now are these bytes.
    ghost got: { Self → List ℕ → Type 0 };

    fn put(&mut self, bytes: &[u8]) -> Result<(), AllocError>
        ensures { OnOk result (Gets got self.old bytes.now self.new) };
}

impl Output for Vec<u8> {
    ghost got = { λ kept bytes. kept.items ≡ bytes };

    fn put(&mut self, bytes: &[u8]) -> Result<(), AllocError> {
        self.extend_from_slice(bytes)
    }
}

/// How many bytes it got, or 2^64 - 1 if it got more.
#[derive(Drop)]
pub(crate) struct Length {
    pub(crate) count: usize,
}

impl Output for Length {
    ghost use Rattle.std.specs.Prelude.{◌-◌, ◌^◌, length, min};

    ghost got = { λ counted bytes. counted.count ≡ min (length bytes) (2 ^ 64 - 1) };

    fn put(&mut self, bytes: &[u8]) -> Result<(), AllocError> {
        self.count = self.count.saturating_add(bytes.len());
        Ok(())
    }
}
