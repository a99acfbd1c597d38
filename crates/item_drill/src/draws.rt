//! The pseudo-random numbers that a drill draws, by a linear congruential generator.
ghost use Rattle.std.specs.Prelude.{◌≡◌};
ghost use Rattle.item_drill.specs.Draws.{drawn, next_state};

/// The factor by which a draw multiplies the state.
const MULTIPLIER: u64 = 6_364_136_223_846_793_005;
/// What a draw then adds to the state.
const INCREMENT: u64 = 1_442_695_040_888_963_407;

/// The state of the generator.
#[derive(Clone, Copy)]
pub(crate) struct Draws {
    pub(crate) state: u64,
}

impl Draws {
    /// Draws a number of 32 bits. It is the upper half of the state, since the lower bits are less
    /// random.
    pub(crate) fn draw(&mut self) -> u32
        ensures state { self.new.state ≡ next_state self.old.state }
        ensures drawn { result ≡ drawn self.new.state }
    {
        self.state = self.state.wrapping_mul(MULTIPLIER).wrapping_add(INCREMENT);
        (self.state >> 32) as u32
    }
}
