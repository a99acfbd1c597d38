//! The targets along ways on.
ghost use Rattle.std.specs.Prelude.{◌≡◌, ◌≤◌, Err, IfOk, IfSome, None, length};
ghost use Rattle.std.specs.List.{Contains};
ghost use Rattle.rate_equal.specs.Free.{AreKnownFree};
ghost use Rattle.rate_equal.specs.declared.letters.Letter.{Letter as LetterOf};
ghost use Rattle.rate_equal.specs.declared.stop.EqualStop.TheVariants.{Reach};
ghost use Rattle.rate_equal.specs.Added.{AreTooMany};
ghost use Rattle.rate_equal.specs.Holding.{AreHeld};
ghost use Rattle.rate_equal.specs.Patterns.{DecideAll};
ghost use Rattle.rate_equal.specs.Reach.{max_reach};
ghost use Rattle.rate_equal.specs.Targets.{AreFound, AreKnown, HasTargets, IsTarget};

use crate::alphabet::Alphabet;
use crate::extension::extend;
use crate::holders::Holders;
use crate::known_sets::{Known, count, nearest};
use crate::letters::Letter;
use crate::pair::Pair;
use crate::pattern::Pattern;
use crate::places::Places;
use crate::restriction::narrow;
use crate::rows::without;
use crate::sieve::sift;
use crate::stop::EqualStop;
use indexmap::IndexSet;
use std::alloc::Global;

// If at most this many positions are asked, the letters are sifted. Each further position may
// double the number of parts.
const FEW: u32 = 3;
// The same if all of them are free: then the letter of a part is mostly known.
const FEW_FREE: u32 = 5;

/// Adds all targets along the ways, and gives their places. There may be places of other pairs too,
/// but only of pairs whose positions are all on the ways. A known set that is near is chosen by the
/// `asked` positions.
pub(crate) fn targets(
    alloc: Global,
    alphabet: &Alphabet,
    known: &[Known],
    holders: &Holders,
    ways: (u128, u128),
    asked: (u128, u128),
    pairs: &mut IndexSet<Pair>,
) -> Result<Places, EqualStop>
    requires free { AreKnownFree alphabet.now.letters.items
        alphabet.now.free.first.items alphabet.now.free.second.items }
    requires known { AreKnown alphabet.now.letters.items pairs.old.keys known.now }
    requires held { AreHeld holders.now.first.items holders.now.second.items
        pairs.old.keys (length pairs.old.keys) }
    requires few { length pairs.old.keys ≤ max_reach }
    ensures found { IfOk result (λ targets.
        AreFound alphabet.now.letters.items ways pairs.old.keys pairs.new.keys targets) }
    ensures too_many { result ≡ Err Reach
        → AreTooMany pairs.old.keys (IsTarget alphabet.now.letters.items ways) }
{
    let decisive = alphabet.decisive(ways);
    let few = if alphabet.free.has_all(&alphabet.letters, decisive) {
        FEW_FREE
    } else {
        FEW
    };
    if count(decisive) <= few {
        return from_few(alloc, alphabet, ways, decisive, pairs);
    }
    match nearest(known, alphabet, asked) {
        Some(place) => from_known(alloc, alphabet, &known[place], holders, ways, pairs),
        None => from_all(alloc, alphabet, ways, pairs),
    }
}

// The same if few positions are asked.
fn from_few(
    alloc: Global,
    alphabet: &Alphabet,
    ways: (u128, u128),
    asked: (u128, u128),
    pairs: &mut IndexSet<Pair>,
) -> Result<Places, EqualStop>
    requires free { AreKnownFree alphabet.now.letters.items
        alphabet.now.free.first.items alphabet.now.free.second.items }
    requires few { length pairs.old.keys ≤ max_reach }
    requires decide { DecideAll alphabet.now.letters.items ways asked }
    ensures found { IfOk result (λ targets.
        AreFound alphabet.now.letters.items ways pairs.old.keys pairs.new.keys targets) }
    ensures too_many { result ≡ Err Reach
        → AreTooMany pairs.old.keys (IsTarget alphabet.now.letters.items ways) }
{
    let mut targets = Places::none(alloc)?;
    let Some(letter) = first_letter(alphabet, asked) else {
        return Ok(targets);
    };
    sift(
        alphabet,
        ways,
        Pattern::of_all(),
        letter,
        asked,
        pairs,
        &mut targets,
    )?;
    Ok(targets)
}

// A letter that has all of the positions, if there is one, and else the first one.
fn first_letter(alphabet: &Alphabet, positions: (u128, u128)) -> Option<Letter>
    ensures some { IfSome result (λ letter. Contains alphabet.now.letters.items letter) }
    ensures none { result ≡ None → (letter : LetterOf) → Contains alphabet.now.letters.items letter
        → ⊥ }
{
    let having = alphabet.first_like(Pattern::of_those(positions));
    if having.is_some() {
        return having;
    }
    alphabet.first_like(Pattern::of_all())
}

// The same by the targets along known ways, and by the letters that have a position which these
// ways lack.
fn from_known(
    alloc: Global,
    alphabet: &Alphabet,
    near: &Known,
    holders: &Holders,
    ways: (u128, u128),
    pairs: &mut IndexSet<Pair>,
) -> Result<Places, EqualStop>
    requires free { AreKnownFree alphabet.now.letters.items
        alphabet.now.free.first.items alphabet.now.free.second.items }
    requires known { HasTargets alphabet.now.letters.items near.now.ways
        pairs.old.keys near.now.targets }
    requires held { AreHeld holders.now.first.items holders.now.second.items
        pairs.old.keys (length pairs.old.keys) }
    requires few { length pairs.old.keys ≤ max_reach }
    ensures found { IfOk result (λ targets.
        AreFound alphabet.now.letters.items ways pairs.old.keys pairs.new.keys targets) }
    ensures too_many { result ≡ Err Reach
        → AreTooMany pairs.old.keys (IsTarget alphabet.now.letters.items ways) }
{
    let mut targets = Places::none(alloc)?;
    narrow(alphabet, near, ways, holders, pairs, &mut targets)?;
    let first = without(ways.0, near.ways.0);
    let second = without(ways.1, near.ways.1);
    let mut left = alphabet.having(alloc, (first, second))?;
    extend(alloc, alphabet, &mut left, ways, pairs, &mut targets)?;
    Ok(targets)
}

// The same by going through all letters.
fn from_all(
    alloc: Global,
    alphabet: &Alphabet,
    ways: (u128, u128),
    pairs: &mut IndexSet<Pair>,
) -> Result<Places, EqualStop>
    requires few { length pairs.old.keys ≤ max_reach }
    ensures found { IfOk result (λ targets.
        AreFound alphabet.now.letters.items ways pairs.old.keys pairs.new.keys targets) }
    ensures too_many { result ≡ Err Reach
        → AreTooMany pairs.old.keys (IsTarget alphabet.now.letters.items ways) }
{
    let mut targets = Places::none(alloc)?;
    let mut left = alphabet.all(alloc)?;
    extend(alloc, alphabet, &mut left, ways, pairs, &mut targets)?;
    Ok(targets)
}
