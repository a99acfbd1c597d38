//! How parts of a case are spoiled.

use crate::draws::Draws;

#[derive(Clone, Copy)]
pub(crate) enum Spoil {
    /// A rule, or the last byte, is left out.
    Missing,
    /// It comes twice.
    Doubled,
    /// Another rule stands in its place, or another byte comes after it.
    Other,
    /// A term without a form stands in its place. Bytes stay as they are.
    Miss,
}

impl Spoil {
    pub(crate) fn drawn(draws: &mut Draws) -> Spoil {
        match draws.below(8) {
            0 => Spoil::Missing,
            1 => Spoil::Doubled,
            2 | 3 => Spoil::Other,
            _ => Spoil::Miss,
        }
    }
}

/// In a case, one part in this many is spoiled, and none if it is 0.
pub(crate) fn rarity(draws: &mut Draws) -> usize {
    match draws.below(8) {
        0 => 12,
        1 => 60,
        2 => 200,
        _ => 0,
    }
}
