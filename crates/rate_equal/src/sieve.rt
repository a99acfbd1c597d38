//! The targets along ways on, found by parting the letters at a few positions.
//!
//! The target of a letter is settled by which of the positions on the ways it has. So the letters
//! are parted by the first position into those that have it and those that lack it, each part by
//! the next position, and so on. All letters of a last part have the same target, and one of them
//! gives it. A part without letters is left out.
ghost use Rattle.std.specs.Prelude.{◌≡◌, ◌≤◌, ◌+◌, Err, IfSome, None, OnOk, length};
ghost use Rattle.std.specs.List.{Contains};
ghost use Rattle.rate_equal.specs.declared.letters.Letter.{Letter as LetterOf};
ghost use Rattle.rate_equal.specs.declared.stop.EqualStop.TheVariants.{Reach};
ghost use Rattle.rate_equal.specs.Added.{AreTooMany, HasPair};
ghost use Rattle.rate_equal.specs.Free.{AreKnownFree, IsMet};
ghost use Rattle.rate_equal.specs.Patterns.{Decide, IsBelow, IsLike};
ghost use Rattle.rate_equal.specs.Reach.{max_reach};
ghost use Rattle.rate_equal.specs.Targets.{AreAlong, IsTarget, target};

use crate::addition::add;
use crate::alphabet::Alphabet;
use crate::letters::Letter;
use crate::pair::Pair;
use crate::pattern::{Pattern, Position, first_and_rest};
use crate::places::Places;
use crate::stop::EqualStop;
use indexmap::IndexSet;

/// Adds the targets of the letters of a pattern. One of these letters is known, and the asked
/// positions decide the target of each.
pub(crate) fn sift(
    alphabet: &Alphabet,
    ways: (u128, u128),
    pattern: Pattern,
    letter: Letter,
    asked: (u128, u128),
    pairs: &mut IndexSet<Pair>,
    targets: &mut Places,
) -> Result<(), EqualStop>
    requires few { length pairs.old.keys ≤ max_reach }
    requires free { AreKnownFree alphabet.now.letters.items
        alphabet.now.free.first.items alphabet.now.free.second.items }
    requires known { IsMet alphabet.now.letters.items letter × IsLike pattern letter }
    requires decide { Decide alphabet.now.letters.items ways pattern asked }
    ensures added { OnOk result (AreAlong alphabet.now.letters.items ways
        pairs.old.keys targets.old pairs.new.keys targets.new) }
    ensures whole { OnOk result ((other : LetterOf) → Contains alphabet.now.letters.items other
        → IsLike pattern other → HasPair pairs.new.keys targets.new (target ways other)) }
    ensures too_many { result ≡ Err Reach
        → AreTooMany pairs.old.keys (IsTarget alphabet.now.letters.items ways) }
{
    let Some((position, rest)) = first_and_rest(asked) else {
        add(letter.target(ways), pairs, targets)?;
        return Ok(());
    };
    let (same, other) = pattern.parted(position, letter);
    sift(alphabet, ways, same, letter, rest, pairs, targets)?;
    if let Some(found) = letter_of(alphabet, other, letter, position) {
        sift(alphabet, ways, other, found, rest, pairs, targets)?;
    }
    Ok(())
}

// A letter of the part, if there is one. Where the position is free, mostly the known letter
// without it is one.
fn letter_of(
    alphabet: &Alphabet,
    part: Pattern,
    known: Letter,
    position: Position,
) -> Option<Letter>
    requires free { AreKnownFree alphabet.now.letters.items
        alphabet.now.free.first.items alphabet.now.free.second.items }
    requires known { IsMet alphabet.now.letters.items known }
    requires position { IsBelow position }
    ensures some { IfSome result (λ letter. IsMet alphabet.now.letters.items letter
        × IsLike part letter) }
    ensures none { result ≡ None → (letter : LetterOf) → Contains alphabet.now.letters.items letter
        → IsLike part letter → ⊥ }
{
    let lacking = known.lacking(alphabet.free.with(position));
    if part.takes(lacking) {
        return Some(lacking);
    }
    alphabet.first_like(part)
}
