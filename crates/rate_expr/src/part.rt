//! Where words of a part of a rate begin and end.
ghost use Rattle.std.specs.Prelude.{◌≡◌, ◌<◌};
ghost use Rattle.rate_expr.specs.Joined.{part_moved};
ghost use Rattle.rate_expr.specs.Parts.{of_empty, of_one, of_sequence, of_choice, of_star};

use crate::masks::{moved, only};

/// Whether the part has the empty word, and the masks of the positions where its words begin and
/// end.
#[derive(Clone, Copy)]
pub(crate) struct Part {
    pub nullable: bool,
    pub first: u128,
    pub last: u128,
}

impl Part {
    pub(crate) fn empty() -> Part
        ensures { result ≡ of_empty }
    {
        Part {
            nullable: true,
            first: 0,
            last: 0,
        }
    }

    pub(crate) fn one(position: u32) -> Part
        requires { position < 128 }
        ensures { result ≡ of_one position }
    {
        let mask = only(position);
        Part {
            nullable: false,
            first: mask,
            last: mask,
        }
    }

    pub(crate) fn then(self, next: Part) -> Part
        ensures { result ≡ of_sequence self next }
    {
        Part {
            nullable: self.nullable && next.nullable,
            first: if self.nullable {
                self.first | next.first
            } else {
                self.first
            },
            last: if next.nullable {
                next.last | self.last
            } else {
                next.last
            },
        }
    }

    pub(crate) fn or(self, other: Part) -> Part
        ensures { result ≡ of_choice self other }
    {
        Part {
            nullable: self.nullable || other.nullable,
            first: self.first | other.first,
            last: self.last | other.last,
        }
    }

    pub(crate) fn star(self) -> Part
        ensures { result ≡ of_star self }
    {
        Part {
            nullable: true,
            first: self.first,
            last: self.last,
        }
    }

    /// The same part, each position raised by `count`.
    pub(crate) fn moved(self, count: u32) -> Part
        ensures { result ≡ part_moved count self }
    {
        Part {
            nullable: self.nullable,
            first: moved(self.first, count),
            last: moved(self.last, count),
        }
    }
}
