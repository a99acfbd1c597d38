//! The letters of two automata, and which of them have a position.
ghost use Rattle.std.specs.Prelude.{◌≡◌, ◌≤◌, ◌<◌, ◌/◌, ◌%◌, ◌⊎◌, ◌↔◌, ℕ, IfOk, IfSome, None, OnOk};
ghost use Rattle.std.specs.Prelude.{Some, length, slice_get};
ghost use Rattle.std.specs.List.{Contains};
ghost use Rattle.rate_expr.specs.Sets.{Has};
ghost use Rattle.rate_equal.specs.Free.{AreKnownFree};
ghost use Rattle.rate_equal.specs.Holding.{AreRows, AreTwins};
ghost use Rattle.rate_equal.specs.Patterns.{AreCommon, DecideAll, IsLike};
ghost use Rattle.rate_equal.specs.PlaceSets.{block_count, HasPlace};
ghost use Rattle.rate_equal.specs.Reach.{max_reach};
ghost use Rattle.rate_equal.specs.Targets.{target};
ghost use Rattle.rate_equal.specs.declared.letters.Letter.{Letter as LetterOf};

use crate::free::FreePositions;
use crate::letters::{Letter, common_of};
use crate::pattern::Pattern;
use crate::places::{BLOCKS, Places};
use crate::rows::{ROWS, gather, hold, in_all, insert_rows, insert_unlike, without};
use crate::twins::{one_of_each, twins, without_twins};
use rate_expr::masks::{lowest, overlap};
use std::alloc::{AllocError, Global};

/// The letters, and for each position of either automaton the places of the letters that have it.
#[derive(Drop)]
pub(crate) struct Alphabet {
    pub(crate) letters: Vec<Letter>,
    first: Vec<u128>,
    second: Vec<u128>,
    // For each position of the second automaton, its twins in the first.
    twins: Vec<u128>,
    // For each position of either automaton, its twins in the same one.
    like_first: Vec<u128>,
    like_second: Vec<u128>,
    pub(crate) free: FreePositions,
    // The positions that all letters have.
    common: (u128, u128),
    ghost few: { length letters.items ≤ max_reach },
    ghost rows_of_first: { length first.items ≡ max_reach },
    ghost rows_of_second: { length second.items ≡ max_reach },
    ghost in_first: { AreRows (λ l. l.first) first.items letters.items (length letters.items) },
    ghost in_second: { AreRows (λ l. l.second) second.items letters.items (length letters.items) },
    ghost each_position: { length twins.items ≡ 128 },
    ghost same_letters: { AreTwins first.items second.items twins.items },
    ghost each_of_first: { length like_first.items ≡ 128 },
    ghost each_of_second: { length like_second.items ≡ 128 },
    ghost same_in_first: { AreTwins first.items first.items like_first.items },
    ghost same_in_second: { AreTwins second.items second.items like_second.items },
    ghost in_common: { AreCommon letters.items common },
}

impl Alphabet {
    pub(crate) fn new(alloc: Global, letters: Vec<Letter>) -> Result<Alphabet, AllocError>
        requires { length letters.items ≤ max_reach }
        ensures letters { IfOk result (λ alphabet. alphabet.letters.items ≡ letters.items) }
        ensures free { IfOk result (λ alphabet. AreKnownFree alphabet.letters.items
            alphabet.free.first.items alphabet.free.second.items) }
    {
        let mut first = vec![in alloc; 0; ROWS]?;
        let mut second = vec![in alloc; 0; ROWS]?;
        enter(&mut first, &mut second, &letters);
        Alphabet::over(alloc, letters, first, second)
    }

    // The alphabet of letters that were entered into the rows.
    fn over(
        alloc: Global,
        letters: Vec<Letter>,
        first: Vec<u128>,
        second: Vec<u128>,
    ) -> Result<Alphabet, AllocError>
        requires few { length letters.items ≤ max_reach }
        requires rows_of_first { length first.items ≡ max_reach }
        requires rows_of_second { length second.items ≡ max_reach }
        requires in_first { AreRows (λ l. l.first) first.items letters.items
            (length letters.items) }
        requires in_second { AreRows (λ l. l.second) second.items letters.items
            (length letters.items) }
        ensures letters { IfOk result (λ alphabet. alphabet.letters.items ≡ letters.items) }
        ensures free { IfOk result (λ alphabet. AreKnownFree alphabet.letters.items
            alphabet.free.first.items alphabet.free.second.items) }
    {
        let used = union_of(&letters);
        let like_first = twins(alloc, &first, &first, (used.0, used.0))?;
        let like_second = twins(alloc, &second, &second, (used.1, used.1))?;
        let twins = twins(alloc, &first, &second, used)?;
        let free = FreePositions::of(alloc, &letters, &first, &second, &twins, used)?;
        let common = common_of(&letters);
        Ok(Alphabet {
            letters,
            first,
            second,
            twins,
            like_first,
            like_second,
            free,
            common,
        })
    }

    pub(crate) fn all(&self, alloc: Global) -> Result<Places, AllocError>
        ensures { IfOk result (λ places. (place : ℕ) (letter : LetterOf)
            → slice_get self.now.letters.items place ≡ Some letter → HasPlace places place) }
    {
        let mut places = Places::none(alloc)?;
        'letters: for place in 0..self.letters.len() {
            places.insert(place);
        }
        Ok(places)
    }

    /// The places of the letters that have at least one of the positions.
    pub(crate) fn having(
        &self,
        alloc: Global,
        positions: (u128, u128),
    ) -> Result<Places, AllocError>
        ensures first { IfOk result (λ places. (place position : ℕ) (letter : LetterOf)
            → slice_get self.now.letters.items place ≡ Some letter → Has positions.0 position
            → Has letter.first position → HasPlace places place) }
        ensures second { IfOk result (λ places. (place position : ℕ) (letter : LetterOf)
            → slice_get self.now.letters.items place ≡ Some letter → Has positions.1 position
            → Has letter.second position → HasPlace places place) }
    {
        let mut places = Places::none(alloc)?;
        insert_rows(&self.first, positions.0, &mut places);
        let others = without_twins(&self.twins, positions.0, positions.1);
        insert_rows(&self.second, others, &mut places);
        Ok(places)
    }

    /// How many letters have at least one of the positions.
    pub(crate) fn count_having(&self, positions: (u128, u128)) -> u32 {
        let mut count: u32 = 0;
        'parts: for block in 0..BLOCKS {
            let first = gather(&self.first, positions.0, block);
            let second = gather(&self.second, positions.1, block);
            count = count.saturating_add((first | second).count_ones());
        }
        count
    }

    /// The letter at the first place of the set, if there is one.
    pub(crate) fn first_of(&self, places: &Places) -> Option<Letter>
        ensures { IfSome result (λ letter. Contains self.now.letters.items letter) }
    {
        self.letters.get(places.first()?).copied()
    }

    /// Positions on the ways that decide the target of a letter: of those that not all letters
    /// have, one of each twins.
    pub(crate) fn decisive(&self, ways: (u128, u128)) -> (u128, u128)
        ensures { DecideAll self.now.letters.items ways result }
    {
        let first = one_of_each(&self.like_first, without(ways.0, self.common.0));
        let second = one_of_each(&self.like_second, without(ways.1, self.common.1));
        (first, without_twins(&self.twins, first, second))
    }

    /// The ways without the positions of the second automaton that have a twin on the ways.
    pub(crate) fn without_twins(&self, ways: (u128, u128)) -> (u128, u128) {
        (ways.0, without_twins(&self.twins, ways.0, ways.1))
    }

    /// The first letter of the pattern, if there is one.
    pub(crate) fn first_like(&self, pattern: Pattern) -> Option<Letter>
        ensures some { IfSome result (λ letter. Contains self.now.letters.items letter
            × IsLike pattern letter) }
        ensures none { result ≡ None → (letter : LetterOf) → Contains self.now.letters.items letter
            → IsLike pattern letter → ⊥ }
    {
        'parts: for block in 0..BLOCKS {
            let found = self.like_in(pattern, block);
            if found.is_some() {
                return found;
            }
        }
        None
    }

    // The same among the letters whose places are in a block.
    fn like_in(&self, pattern: Pattern, block: usize) -> Option<Letter>
        requires { block < block_count }
        ensures some { IfSome result (λ letter. Contains self.now.letters.items letter
            × IsLike pattern letter) }
        ensures none { result ≡ None → (place : ℕ) (letter : LetterOf) → place / 128 ≡ block
            → slice_get self.now.letters.items place ≡ Some letter → IsLike pattern letter → ⊥ }
    {
        let like = self.block_like(pattern, block);
        if like == 0 {
            return None;
        }
        let place = block * 128 + lowest(like) as usize;
        if place >= self.letters.len() {
            return None;
        }
        Some(self.letters[place])
    }

    // The bits of the places of letters of the pattern in a block. There may be bits past the last
    // letter.
    fn block_like(&self, pattern: Pattern, block: usize) -> u128
        requires { block < block_count }
        ensures { (place : ℕ) (letter : LetterOf) → place / 128 ≡ block
            → slice_get self.now.letters.items place ≡ Some letter
            → Has result (place % 128) ↔ IsLike pattern letter }
    {
        let first = in_all(&self.first, pattern.has.0, block, u128::MAX);
        let has = in_all(&self.second, pattern.has.1, block, first);
        if has == 0 {
            return 0;
        }
        let lacked = gather(&self.first, pattern.lacks.0, block);
        let also = gather(&self.second, pattern.lacks.1, block);
        without(without(has, lacked), also)
    }

    /// Takes out of the set the places of all letters with the same target.
    pub(crate) fn pass(
        &self,
        alloc: Global,
        places: &mut Places,
        letter: Letter,
        ways: (u128, u128),
    ) -> Result<(), AllocError>
        requires { Contains self.now.letters.items letter }
        ensures { OnOk result ((place : ℕ) (other : LetterOf) → HasPlace places.old place
            → slice_get self.now.letters.items place ≡ Some other
            → HasPlace places.new place ⊎ (target ways other ≡ target ways letter)) }
    {
        let others = self.unlike(alloc, letter, ways)?;
        'parts: for block in 0..BLOCKS {
            places.keep(block, others.block(block));
        }
        Ok(())
    }

    // The places of the letters with another target.
    fn unlike(
        &self,
        alloc: Global,
        letter: Letter,
        ways: (u128, u128),
    ) -> Result<Places, AllocError>
        requires { Contains self.now.letters.items letter }
        ensures { IfOk result (λ places. (place : ℕ) (other : LetterOf)
            → slice_get self.now.letters.items place ≡ Some other
            → HasPlace places place ⊎ (target ways other ≡ target ways letter)) }
    {
        let mut places = Places::none(alloc)?;
        insert_unlike(&self.first, ways.0, letter.first, &mut places);
        let others = without_twins(&self.twins, ways.0, ways.1);
        insert_unlike(&self.second, others, letter.second, &mut places);
        Ok(places)
    }
}

// The positions that letters have.
fn union_of(letters: &[Letter]) -> (u128, u128) {
    let mut found = (0, 0);
    'letters: for letter in letters {
        found = (found.0 | letter.first, found.1 | letter.second);
    }
    found
}

// Enters the letters into rows that are empty.
fn enter(first: &mut [u128], second: &mut [u128], letters: &[Letter])
    requires few { length letters.now ≤ max_reach }
    requires rows_of_first { length first.old ≡ max_reach }
    requires rows_of_second { length second.old ≡ max_reach }
    requires first { AreRows (λ l. l.first) first.old letters.now 0 }
    requires second { AreRows (λ l. l.second) second.old letters.now 0 }
    ensures first { AreRows (λ l. l.first) first.new letters.now (length letters.now) }
    ensures second { AreRows (λ l. l.second) second.new letters.now (length letters.now) }
{
    'letters: for place in 0..letters.len() {
        let letter = letters[place];
        hold(first, letter.first, place);
        hold(second, letter.second, place);
    }
}
