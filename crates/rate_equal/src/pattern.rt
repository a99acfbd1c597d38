//! Letters that have some positions and lack others.
ghost use Rattle.std.specs.Prelude.{◌≡◌, ◌↔◌, ◌⊎◌, IfSome, IsTrue, None};
ghost use Rattle.rate_equal.specs.declared.letters.Letter.{Letter as LetterOf};
ghost use Rattle.rate_equal.specs.Patterns.{HasAt, HaveSameAt, IsBelow, IsLike, IsRest};
ghost use Rattle.rate_equal.specs.Patterns.{positions_of};

use crate::letters::Letter;
use crate::rows::without;
use rate_expr::masks::{has, lowest, only, overlap, without_lowest};

/// A position of one of two automata.
#[derive(Clone, Copy)]
pub(crate) enum Position {
    First(u32),
    Second(u32),
}

/// The positions of both automata that the letters have, and those that they lack.
#[derive(Clone, Copy)]
pub(crate) struct Pattern {
    pub(crate) has: (u128, u128),
    pub(crate) lacks: (u128, u128),
}

impl Pattern {
    /// The pattern of all letters.
    pub(crate) fn of_all() -> Pattern
        ensures { (letter : LetterOf) → IsLike result letter }
    {
        Pattern {
            has: (0, 0),
            lacks: (0, 0),
        }
    }

    /// The pattern of the letters that have all of the positions.
    pub(crate) fn of_those(positions: (u128, u128)) -> Pattern {
        Pattern {
            has: positions,
            lacks: (0, 0),
        }
    }

    /// Parts the letters of the pattern into those that agree with `letter` about the position, and
    /// the others.
    pub(crate) fn parted(self, position: Position, letter: Letter) -> (Pattern, Pattern)
        requires { IsBelow position }
        ensures like { (other : LetterOf) → IsLike result.0 other
            ↔ (IsLike self other × HaveSameAt position letter other) }
        ensures unlike { (other : LetterOf) → IsLike result.1 other
            ↔ (IsLike self other × (HaveSameAt position letter other → ⊥)) }
    {
        if letter.has(position) {
            (self.having(position), self.lacking(position))
        } else {
            (self.lacking(position), self.having(position))
        }
    }

    /// Whether a letter with these positions is known to be of the pattern.
    pub(crate) fn takes(self, letter: Letter) -> bool
        ensures { IsTrue result → IsLike self letter }
    {
        is_within(self.has, letter.positions()) && are_apart(self.lacks, letter.positions())
    }

    fn having(self, position: Position) -> Pattern
        requires { IsBelow position }
        ensures { (letter : LetterOf)
            → IsLike result letter ↔ (IsLike self letter × HasAt (positions_of letter) position) }
    {
        Pattern {
            has: with(self.has, position),
            lacks: self.lacks,
        }
    }

    fn lacking(self, position: Position) -> Pattern
        requires { IsBelow position }
        ensures { (letter : LetterOf) → IsLike result letter
            ↔ (IsLike self letter × (HasAt (positions_of letter) position → ⊥)) }
    {
        Pattern {
            has: self.has,
            lacks: with(self.lacks, position),
        }
    }
}

impl Letter {
    // Whether the letter has the position.
    fn has(&self, position: Position) -> bool
        ensures { IsTrue result ↔ HasAt (positions_of self.now) position }
    {
        match position {
            Position::First(place) => has(self.first, place),
            Position::Second(place) => has(self.second, place),
        }
    }
}

/// One of the positions, and the others.
pub(crate) fn first_and_rest(positions: (u128, u128)) -> Option<(Position, (u128, u128))>
    ensures some { IfSome result (λ parts. IsRest positions parts.0 parts.1) }
    ensures none { result ≡ None → (position : Position) → HasAt positions position → ⊥ }
{
    if positions.0 != 0 {
        let position = Position::First(lowest(positions.0));
        return Some((position, (without_lowest(positions.0), positions.1)));
    }
    if positions.1 != 0 {
        let position = Position::Second(lowest(positions.1));
        return Some((position, (positions.0, without_lowest(positions.1))));
    }
    None
}

fn with(positions: (u128, u128), position: Position) -> (u128, u128)
    requires { IsBelow position }
    ensures { (other : Position)
        → HasAt result other ↔ (HasAt positions other ⊎ (position ≡ other)) }
{
    match position {
        Position::First(place) => (positions.0 | only(place), positions.1),
        Position::Second(place) => (positions.0, positions.1 | only(place)),
    }
}

/// Whether the positions are among the others.
pub(crate) fn is_within(positions: (u128, u128), others: (u128, u128)) -> bool
    ensures { IsTrue result → (position : Position) → HasAt positions position
        → HasAt others position }
{
    without(positions.0, others.0) == 0 && without(positions.1, others.1) == 0
}

/// Whether no position is in both pairs of masks.
pub(crate) fn are_apart(positions: (u128, u128), others: (u128, u128)) -> bool
    ensures { IsTrue result → (position : Position) → HasAt positions position
        → HasAt others position → ⊥ }
{
    !overlap(positions.0, others.0) && !overlap(positions.1, others.1)
}
