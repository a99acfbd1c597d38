//! Regular expressions over predicates on items.
ghost use Rattle.std.specs.Prelude.{◌≡◌, ◌-◌, ◌^◌, min, IfOk};

use predicates::Pred;
use std::alloc::{AllocError, Global};

/// The most positions that a rate may have.
pub const MAX_POSITIONS: u32 = 128;

/// A rate: a set of words of items.
#[derive(Drop)]
pub enum Rate {
    /// The empty word alone.
    Empty,
    /// The words of one item, which meets the predicate.
    One(Pred),
    /// A word of the first, and then a word of the second.
    Seq(Box<Rate>, Box<Rate>),
    /// The words of either.
    Alt(Box<Rate>, Box<Rate>),
    /// Any number of words of the inner rate, one after the other.
    Star(Box<Rate>),
}

impl Rate {
    ghost use Rattle.predicates.specs.Plain as predicates;
    ghost use Rattle.rate_expr.specs.Plain.{plain_of};
    ghost use Rattle.rate_expr.specs.Rates.{one, size_of};

    /// The words of one item that meets the predicate, of which a copy is kept.
    pub fn of_item(pred: &Pred, alloc: Global) -> Result<Rate, AllocError>
        ensures { IfOk result (λ rate. plain_of rate ≡ one (predicates.plain_of pred.now)) }
    {
        Ok(Rate::One(pred.try_copy(alloc)?))
    }

    /// How many predicates stand in the rate, at most 2^32 - 1.
    pub fn positions(&self) -> u32
        ensures { result ≡ min (size_of (plain_of self.now)) (2 ^ 32 - 1) }
    {
        match self {
            Rate::Empty => 0,
            Rate::One(_) => 1,
            Rate::Seq(left, right) => left.positions().saturating_add(right.positions()),
            Rate::Alt(left, right) => left.positions().saturating_add(right.positions()),
            Rate::Star(inner) => inner.positions(),
        }
    }

    #[cycle(copy)]
    pub fn try_copy(&self, alloc: Global) -> Result<Rate, AllocError>
        ensures { IfOk result (λ copy. plain_of copy ≡ plain_of self.now) }
    {
        match self {
            Rate::Empty => Ok(Rate::Empty),
            Rate::One(pred) => Rate::of_item(pred, alloc),
            Rate::Seq(left, right) => {
                let left = left.boxed_copy(alloc)?;
                Ok(Rate::Seq(left, right.boxed_copy(alloc)?))
            }
            Rate::Alt(left, right) => {
                let left = left.boxed_copy(alloc)?;
                Ok(Rate::Alt(left, right.boxed_copy(alloc)?))
            }
            Rate::Star(inner) => Ok(Rate::Star(inner.boxed_copy(alloc)?)),
        }
    }

    #[cycle(copy)]
    fn boxed_copy(&self, alloc: Global) -> Result<Box<Rate>, AllocError>
        ensures { IfOk result (λ copy. plain_of copy.value ≡ plain_of self.now) }
    {
        Ok(Box::new(alloc, self.try_copy(alloc)?)?)
    }
}
