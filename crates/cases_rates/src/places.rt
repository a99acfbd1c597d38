//! Places in a short word.

use crate::words::ITEMS;

/// How many places the longest word has before, between and after its items.
pub(crate) const PLACES: u32 = ITEMS + 1;

/// Some of the places of a word, each as a bit.
#[derive(Clone, Copy)]
pub(crate) struct Places {
    bits: u8,
}

impl Places {
    pub(crate) const NONE: Places = Places { bits: 0 };

    /// This place alone, if words have it.
    pub(crate) fn at(place: u32) -> Places {
        if place >= PLACES {
            return Places::NONE;
        }
        Places { bits: 1 << place }
    }

    pub(crate) fn has(self, place: u32) -> bool {
        self.bits & Places::at(place).bits != 0
    }

    pub(crate) fn or(self, other: Places) -> Places {
        Places {
            bits: self.bits | other.bits,
        }
    }

    /// The places one item later.
    pub(crate) fn moved_on(self) -> Places {
        Places {
            bits: self.bits << 1,
        }
    }
}
