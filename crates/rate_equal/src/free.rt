//! Free positions: each letter without them is a letter too.
//!
//! Where each test stands on a column of its own, all positions are free. Of ways on that lack free
//! positions of known ones, the targets need not be looked for: they are the known targets that
//! lack these positions.
ghost use Rattle.std.specs.Prelude.{◌≡◌, List, IfOk, IsTrue, length};
ghost use Rattle.std.specs.List.{Contains};
ghost use Rattle.rate_equal.specs.Free.{AreAllFree, AreFree, AreKnownFree, CanLack};
ghost use Rattle.rate_equal.specs.Patterns.{IsBelow};
ghost use Rattle.rate_equal.specs.Reach.{max_reach};
ghost use Rattle.rate_equal.specs.declared.letters.Letter.{Letter as LetterOf};

use crate::letters::Letter;
use crate::pattern::{Position, are_apart, is_within};
use crate::twins::{POSITIONS, twins_of};
use rate_expr::masks::{has, lowest, without_lowest};
use std::alloc::{AllocError, Global};

/// For each position of either automaton, free positions.
#[derive(Drop)]
pub(crate) struct FreePositions {
    pub(crate) first: Vec<(u128, u128)>,
    pub(crate) second: Vec<(u128, u128)>,
    ghost each_first: { length first.items ≡ 128 },
    ghost each_second: { length second.items ≡ 128 },
}

impl FreePositions {
    /// Those of the letters that were entered into the rows, where letters use these positions.
    pub(crate) fn of(
        alloc: Global,
        letters: &[Letter],
        first: &[u128],
        second: &[u128],
        twins: &[u128],
        used: (u128, u128),
    ) -> Result<FreePositions, AllocError>
        requires rows_of_first { length first.now ≡ max_reach }
        requires rows_of_second { length second.now ≡ max_reach }
        requires twins { length twins.now ≡ 128 }
        ensures { IfOk result (λ free. AreKnownFree letters.now free.first.items
            free.second.items) }
    {
        let of_first = free_of_first(alloc, letters, first, second, used)?;
        let of_second = free_of_second(alloc, letters, second, used.1, twins, &of_first)?;
        Ok(FreePositions {
            first: of_first,
            second: of_second,
        })
    }

    /// Free positions, as a rule all that the same letters have as the position.
    pub(crate) fn with(&self, position: Position) -> (u128, u128)
        requires { IsBelow position }
        ensures { (letters : List LetterOf) → AreKnownFree letters self.now.first.items
            self.now.second.items → AreFree letters result }
    {
        match position {
            Position::First(place) => self.first[place as usize],
            Position::Second(place) => self.second[place as usize],
        }
    }

    /// Whether each of the positions is known to be among free ones.
    pub(crate) fn has_all(&self, letters: &[Letter], positions: (u128, u128)) -> bool
        requires { AreKnownFree letters.now self.now.first.items self.now.second.items }
    {
        is_within(positions, self.around(letters, positions))
    }

    /// Whether it is known that for each letter some letter has the same of the ways and lacks the
    /// positions.
    pub(crate) fn can_lack(
        &self,
        letters: &[Letter],
        positions: (u128, u128),
        ways: (u128, u128),
    ) -> bool
        requires { AreKnownFree letters.now self.now.first.items self.now.second.items }
        ensures { IsTrue result → CanLack letters.now positions ways }
    {
        let free = self.around(letters, positions);
        is_within(positions, free) && are_apart(free, ways)
    }

    // The free positions of all of the positions.
    fn around(&self, letters: &[Letter], positions: (u128, u128)) -> (u128, u128)
        requires { AreKnownFree letters.now self.now.first.items self.now.second.items }
        ensures { AreFree letters.now result }
    {
        let free = with_free(letters, &self.first, positions.0, (0, 0));
        with_free(letters, &self.second, positions.1, free)
    }
}

// For each position of the first automaton, free positions: all that the same letters have, if
// they are free, and else none.
fn free_of_first(
    alloc: Global,
    letters: &[Letter],
    first: &[u128],
    second: &[u128],
    used: (u128, u128),
) -> Result<Vec<(u128, u128)>, AllocError>
    requires rows_of_first { length first.now ≡ max_reach }
    requires rows_of_second { length second.now ≡ max_reach }
    ensures length { IfOk result (λ free. length free.items ≡ 128) }
    ensures free { IfOk result (λ free. AreAllFree letters.now free.items) }
{
    let mut free = Vec::with_capacity(alloc, POSITIONS)?;
    'positions: for position in 0..POSITIONS {
        let mut alike = (0, 0);
        if has(used.0, position as u32) {
            alike.0 = twins_of(first, used.0, first, position);
            alike.1 = twins_of(second, used.1, first, position);
        }
        free.push(free_or_none(letters, alike))?;
    }
    Ok(free)
}

// The same for the second automaton, with those of twins in the first.
fn free_of_second(
    alloc: Global,
    letters: &[Letter],
    second: &[u128],
    used: u128,
    twins: &[u128],
    of_first: &[(u128, u128)],
) -> Result<Vec<(u128, u128)>, AllocError>
    requires rows_of_second { length second.now ≡ max_reach }
    requires twins { length twins.now ≡ 128 }
    requires length { length of_first.now ≡ 128 }
    requires free { AreAllFree letters.now of_first.now }
    ensures length { IfOk result (λ free. length free.items ≡ 128) }
    ensures free { IfOk result (λ free. AreAllFree letters.now free.items) }
{
    let mut free = Vec::with_capacity(alloc, POSITIONS)?;
    'positions: for position in 0..POSITIONS {
        if twins[position] != 0 {
            free.push(of_first[lowest(twins[position]) as usize])?;
            continue 'positions;
        }
        let mut alike = 0;
        if has(used, position as u32) {
            alike = twins_of(second, used, second, position);
        }
        free.push(free_or_none(letters, (0, alike)))?;
    }
    Ok(free)
}

// The positions if they are free, and else none.
fn free_or_none(letters: &[Letter], positions: (u128, u128)) -> (u128, u128)
    ensures { AreFree letters.now result }
{
    if are_free(letters, positions) {
        positions
    } else {
        (0, 0)
    }
}

// Whether each letter without the positions is a letter too. Letters that have all of the
// positions stand in the same order without them, so that one pass finds them all.
fn are_free(letters: &[Letter], positions: (u128, u128)) -> bool
    ensures { IsTrue result → AreFree letters.now positions }
{
    let mut next = 0;
    'letters: for letter in letters {
        if are_apart(positions, letter.positions()) {
            continue 'letters;
        }
        let left = letter.lacking(positions);
        next = place_from(letters, next, left);
        if !stands_at(letters, next, left) {
            return false;
        }
    }
    true
}

// The first place from `start` on whose letter is not below this one, in the order of letters.
fn place_from(letters: &[Letter], start: usize, letter: Letter) -> usize {
    'places: for place in start..letters.len() {
        if letters[place] >= letter {
            return place;
        }
    }
    letters.len()
}

fn stands_at(letters: &[Letter], place: usize, letter: Letter) -> bool
    ensures { IsTrue result → Contains letters.now letter }
{
    place < letters.len() && letters[place] == letter
}

// The free positions of all positions of the mask, and those that are given.
fn with_free(
    letters: &[Letter],
    free: &[(u128, u128)],
    mask: u128,
    given: (u128, u128),
) -> (u128, u128)
    requires length { length free.now ≡ 128 }
    requires free { AreAllFree letters.now free.now }
    requires given { AreFree letters.now given }
    ensures { AreFree letters.now result }
{
    let mut found = given;
    let mut rest = mask;
    'positions: while rest != 0 {
        let more = free[lowest(rest) as usize];
        found = (found.0 | more.0, found.1 | more.1);
        rest = without_lowest(rest);
    }
    found
}
