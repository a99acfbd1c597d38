//! Numbers that a seed draws.
ghost use Rattle.std.specs.Prelude.{◌<◌};

/// What the state grows by with each draw, and the two factors that stir it: the constants of the
/// generator SplitMix64.
const STEP: u64 = 0x9E37_79B9_7F4A_7C15;

const FIRST: u64 = 0xBF58_476D_1CE4_E5B9;

const SECOND: u64 = 0x94D0_49BB_1331_11EB;

#[derive(Clone, Copy)]
pub(crate) struct Draws {
    state: u64,
}

impl Draws {
    pub(crate) fn new(seed: u64) -> Draws {
        Draws { state: seed }
    }

    fn draw(&mut self) -> u64 {
        self.state = self.state.wrapping_add(STEP);
        let mut word = self.state;
        word = (word ^ (word >> 30)).wrapping_mul(FIRST);
        word = (word ^ (word >> 27)).wrapping_mul(SECOND);
        word ^ (word >> 31)
    }

    /// A number below the bound, or 0 where that is 0.
    pub(crate) fn below(&mut self, bound: usize) -> usize
        ensures { 0 < bound → result < bound }
    {
        let word = self.draw() as usize;
        word.checked_rem(bound).unwrap_or(0)
    }

    /// Whether one draw in `count` hits this one. If the count is 0, none does.
    pub(crate) fn is_one_of(&mut self, count: usize) -> bool {
        count > 0 && self.below(count) == 0
    }

    pub(crate) fn byte(&mut self) -> u8 {
        self.below(256) as u8
    }
}
