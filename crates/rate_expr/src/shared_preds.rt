//! Lists of predicates in which equal ones are kept once.
ghost use Rattle.std.specs.Prelude.{◌≡◌, ◌↔◌, ◌<◌, ◌≤◌, ◌++◌, ◌∷◌, [], ℕ, Some, IfOk, OnOk, length};
ghost use Rattle.std.specs.Prelude.{slice_get};
ghost use Rattle.language_base.specs.Limits.{max_positions};
ghost use Rattle.predicates.specs.Plain.{plain_of};
ghost use Rattle.rate_expr.specs.Sets.{Has};
ghost use Rattle.rate_expr.specs.Shared.{listed, AreShared};

use crate::masks::only;
use predicates::{Pred, Preds};
use std::alloc::{AllocError, Global};
use std::marker::Model;

/// The predicates of positions, seen as the distinct ones and, for each position, its place among
/// them.
#[derive(Drop)]
pub struct SharedPreds {
    distinct: Preds,
    places: Vec<usize>,
}

impl Model for SharedPreds {
    ghost use Rattle.std.specs.Coded.{codes};
    ghost use Rattle.predicates.specs.Coding.{coded_predicate};
    ghost use Rattle.rate_expr.specs.Shared.{Shared};

    ghost Value = { Shared };

    ghost coded = { Prim.hlevel (codes, coded_predicate) };

    ghost view = { λ p. record { distinct = p.distinct; places = p.places.items } };
}

impl SharedPreds {
    pub(crate) fn new(alloc: Global) -> SharedPreds
        ensures { result ≡ record { distinct = []; places = [] } }
    {
        SharedPreds {
            distinct: Preds::new(alloc),
            places: Vec::new(alloc),
        }
    }

    /// Appends the predicate of one more position.
    pub(crate) fn add(&mut self, pred: &Pred) -> Result<(), AllocError>
        requires { AreShared self.old }
        ensures shared { OnOk result (AreShared self.new) }
        ensures listed { OnOk result (listed self.new ≡ listed self.old ++ plain_of pred.now ∷ []) }
    {
        match self.distinct.place_of(pred) {
            Some(place) => {
                self.places.push(place)?;
                Ok(())
            }
            None => {
                let place = self.distinct.len();
                self.distinct.add(pred)?;
                self.places.push(place)?;
                Ok(())
            }
        }
    }

    /// Appends the predicates of other positions.
    pub(crate) fn append(&mut self, others: &SharedPreds) -> Result<(), AllocError>
        requires shared { AreShared self.old }
        requires others { AreShared others.now }
        ensures shared { OnOk result (AreShared self.new) }
        ensures listed { OnOk result (listed self.new ≡ listed self.old ++ listed others.now) }
    {
        for position in 0..others.count() {
            self.add(others.get(position))?;
        }
        Ok(())
    }

    pub(crate) fn try_copy(&self, alloc: Global) -> Result<SharedPreds, AllocError>
        ensures { IfOk result (λ copy. copy ≡ self.now) }
    {
        Ok(SharedPreds {
            distinct: self.distinct.try_copy(alloc)?,
            places: Vec::from_slice(alloc, &self.places)?,
        })
    }

    pub(crate) fn count(&self) -> usize
        ensures { result ≡ length (listed self.now) }
    {
        self.places.len()
    }

    pub(crate) fn get(&self, position: usize) -> &Pred
        requires shared { AreShared self.now }
        requires position { position < length (listed self.now) }
        ensures { slice_get (listed self.now) position ≡ Some (plain_of result.now) }
    {
        self.distinct.get(self.places[position])
    }

    /// The predicates without repetitions.
    pub fn distinct(&self) -> &Preds
        ensures { result.now ≡ self.now.distinct }
    {
        &self.distinct
    }

    /// The positions whose predicate is kept at the place.
    pub fn positions_of(&self, place: usize) -> u128
        requires { length (listed self.now) ≤ max_positions }
        ensures { (position : ℕ)
            → Has result position ↔ (slice_get self.now.places position ≡ Some place) }
    {
        let mut found = 0;
        'positions: for position in 0..self.places.len() {
            if self.places[position] == place {
                found |= only(position as u32);
            }
        }
        found
    }
}
