// Rates and their positions, each in a box as soon as it is made.
use crate::assertions::holds;
use predicates::Pred;
use rate_expr::{MAX_POSITIONS, Positions, Rate};
use std::alloc::{AllocError, Global};
use std::process::Abort;

pub(crate) fn boxed(alloc: Global, rate: Rate) -> Result<Box<Rate>, AllocError> {
    Ok(Box::new(alloc, rate)?)
}

// The rate of an item that meets the predicate.
pub(crate) fn item(alloc: Global, pred: Pred) -> Result<Box<Rate>, AllocError> {
    boxed(alloc, Rate::One(pred))
}

// The rate of any items, one after the other.
pub(crate) fn items(alloc: Global) -> Result<Box<Rate>, AllocError> {
    let any = item(alloc, Pred::Any)?;
    boxed(alloc, Rate::Star(any))
}

// The rates of an item, and of any items.
#[derive(Drop)]
pub(crate) struct Rates {
    pub(crate) item: Box<Rate>,
    pub(crate) items: Box<Rate>,
}

pub(crate) fn item_and_items(alloc: Global) -> Result<Rates, AllocError> {
    let item = item(alloc, Pred::Any)?;
    let items = items(alloc)?;
    Ok(Rates { item, items })
}

pub(crate) fn held(alloc: Global, sets: Positions) -> Result<Box<Positions>, AllocError> {
    Ok(Box::new(alloc, sets)?)
}

pub(crate) fn sets_of(
    rt: &impl Abort,
    alloc: Global,
    rate: &Rate,
) -> Result<Box<Positions>, AllocError> {
    holds(rt, rate.positions() <= MAX_POSITIONS);
    held(alloc, Positions::of(alloc, rate)?)
}
