//! What a search remembers: the ways on that it has met, and the targets along them.
ghost use Rattle.std.specs.Prelude.{◌≡◌, ◌≤◌, ◌⊎◌, ℕ, [], List, Err, IfOk, OnOk, length};
ghost use Rattle.std.specs.List.{Contains};
ghost use Rattle.rate_equal.specs.Free.{AreKnownFree};
ghost use Rattle.rate_equal.specs.declared.letters.Letter.{Letter};
ghost use Rattle.rate_equal.specs.declared.pair.Pair.{Pair as PairOf};
ghost use Rattle.rate_equal.specs.declared.stop.EqualStop.TheVariants.{Reach};
ghost use Rattle.rate_equal.specs.Added.{AreTooMany};
ghost use Rattle.rate_equal.specs.Reach.{max_reach};
ghost use Rattle.rate_equal.specs.Targets.{IsTarget};
ghost use Rattle.rate_equal.specs.Trails.{GoesAlong, IsTrailOf};

use crate::alphabet::Alphabet;
use crate::holders::Holders;
use crate::known_sets::Known;
use crate::pair::Pair;
use crate::stop::EqualStop;
use crate::targets::targets;
use indexmap::IndexSet;
use std::alloc::{AllocError, Global};

/// The ways on that were met, the targets along them, and which of the pairs have a position.
#[derive(Drop)]
pub(crate) struct Trail {
    pub(crate) gone: IndexSet<(u128, u128)>,
    pub(crate) known: Vec<Known>,
    pub(crate) holders: Holders,
}

impl Trail {
    /// The trail of a search that has met nothing yet.
    pub(crate) fn new(alloc: Global) -> Result<Trail, AllocError>
        ensures gone { IfOk result (λ trail. trail.gone.keys ≡ []) }
        ensures trail { IfOk result (λ trail. (letters : List Letter) (pairs : List PairOf)
            → IsTrailOf letters pairs trail) }
    {
        Ok(Trail {
            holders: Holders::new(alloc)?,
            gone: IndexSet::new(alloc),
            known: Vec::new(alloc),
        })
    }

    /// Adds all targets along the ways. If the ways were met before, all of them are known already.
    pub(crate) fn go_along(
        &mut self,
        alloc: Global,
        alphabet: &Alphabet,
        ways: (u128, u128),
        pairs: &mut IndexSet<Pair>,
    ) -> Result<(), EqualStop>
        requires free { AreKnownFree alphabet.now.letters.items
            alphabet.now.free.first.items alphabet.now.free.second.items }
        requires trail { IsTrailOf alphabet.now.letters.items pairs.old.keys self.old }
        requires few { length pairs.old.keys ≤ max_reach }
        ensures trail { OnOk result (IsTrailOf alphabet.now.letters.items pairs.new.keys self.new) }
        ensures gone { OnOk result ((other : ℕ × ℕ) → Contains self.new.gone.keys other
            → Contains self.old.gone.keys other ⊎ (ways ≡ other)) }
        ensures along { OnOk result (GoesAlong alphabet.now.letters.items ways
            self.old.gone.keys pairs.old.keys pairs.new.keys) }
        ensures too_many { result ≡ Err Reach
            → AreTooMany pairs.old.keys (IsTarget alphabet.now.letters.items ways) }
    {
        if !self.gone.insert(ways)? {
            return Ok(());
        }
        self.holders.enter(pairs.as_slice());
        let asked = alphabet.without_twins(ways);
        let targets = targets(
            alloc,
            alphabet,
            &self.known,
            &self.holders,
            ways,
            asked,
            pairs,
        )?;
        self.known.push(Known::new(ways, asked, targets))?;
        Ok(())
    }
}
