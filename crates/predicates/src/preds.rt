//! A list of predicates.
ghost use Rattle.std.specs.Prelude.{◌≡◌, ◌<◌, [], ◌∷◌, ◌++◌, Some, length, map, slice_get, IfOk};
ghost use Rattle.std.specs.Prelude.{IfSome, IfNone, OnOk, OnErr};
ghost use Rattle.std.specs.List.{list_all, Contains};
ghost use Rattle.predicates.specs.Fits.{fits};
ghost use Rattle.predicates.specs.Plain.{plain_of};

use crate::Pred;
use item_schema::Schema;
use std::alloc::{AllocError, Global};
use std::marker::Model;

/// Predicates in the order in which they were added, seen as their list.
#[derive(Drop)]
pub struct Preds {
    preds: Vec<Pred>,
}

impl Model for Preds {
    ghost use Rattle.std.specs.Prelude.{List, map};
    ghost use Rattle.std.specs.Coded.{codes};
    ghost use Rattle.predicates.specs.Coding.{coded_predicate};
    ghost use Rattle.predicates.specs.Plain.{plain_of};
    ghost use Rattle.predicates.specs.Predicates.{Predicate};

    ghost Value = { List Predicate };

    ghost coded = { Prim.hlevel (codes, coded_predicate) };

    ghost view = { λ p. map plain_of p.preds.items };
}

impl Preds {
    /// The empty list takes no memory.
    pub fn new(alloc: Global) -> Preds
        ensures { result ≡ [] }
    {
        Preds {
            preds: Vec::new(alloc),
        }
    }

    /// Appends a copy of the predicate.
    pub fn add(&mut self, pred: &Pred) -> Result<(), AllocError>
        ensures ok { OnOk result (self.new ≡ self.old ++ plain_of pred.now ∷ []) }
        ensures err { OnErr result (self.new ≡ self.old) }
    {
        let copy = pred.try_copy(*self.preds.allocator())?;
        self.preds.push(copy)?;
        Ok(())
    }

    /// Whether each predicate can be asked about items of the schema.
    pub fn fit(&self, schema: &Schema) -> bool
        ensures { result ≡ list_all (fits schema.now.columns) self.now }
    {
        self.preds.iter().all(|pred| pred.fits(schema))
    }

    pub fn try_copy(&self, alloc: Global) -> Result<Preds, AllocError>
        ensures { IfOk result (λ copy. copy ≡ self.now) }
    {
        let mut preds = Vec::with_capacity(alloc, self.preds.len())?;
        for pred in &self.preds {
            preds.push(pred.try_copy(alloc)?)?;
        }
        Ok(Preds { preds })
    }

    pub fn len(&self) -> usize
        ensures { result ≡ length self.now }
    {
        self.preds.len()
    }

    pub fn get(&self, index: usize) -> &Pred
        requires { index < length self.now }
        ensures { slice_get self.now index ≡ Some (plain_of result.now) }
    {
        &self.preds[index]
    }

    /// The index of an equal predicate, if there is one.
    pub fn place_of(&self, pred: &Pred) -> Option<usize>
        ensures found { IfSome result (λ index.
            slice_get self.now index ≡ Some (plain_of pred.now)) }
        ensures missing { IfNone result (Contains self.now (plain_of pred.now) → ⊥) }
    {
        self.preds.iter().position(|known| known.is_same(pred))
    }

    pub fn as_slice(&self) -> &[Pred]
        ensures { map plain_of result.now ≡ self.now }
    {
        &self.preds
    }
}
