//! The positions of a rate, made from those of its parts.

use crate::automata::positions_of;
use crate::stop::Stop;
use predicates::Pred;
use rate_expr::{MAX_POSITIONS, Positions, Rate};
use std::alloc::Global;

/// Whether the parts of the first rate make the positions of the second.
pub(crate) fn make(alloc: Global, first: &Rate, second: &Rate) -> Result<&'static str, Stop> {
    let made = made_of_parts(alloc, first)?;
    let found = positions_of(alloc, second)?;
    if are_same(&made, &found) {
        Ok("yes")
    } else {
        Ok("no")
    }
}

fn made_of_parts(alloc: Global, rate: &Rate) -> Result<Box<Positions>, Stop> {
    match rate {
        Rate::Empty => held(alloc, Positions::empty(alloc)),
        Rate::One(test) => one(alloc, test),
        Rate::Seq(first, second) => {
            let first = made_of_parts(alloc, first)?;
            in_sequence(alloc, first, made_of_parts(alloc, second)?)
        }
        Rate::Alt(first, second) => {
            let first = made_of_parts(alloc, first)?;
            in_choice(alloc, first, made_of_parts(alloc, second)?)
        }
        Rate::Star(inner) => again(alloc, made_of_parts(alloc, inner)?),
    }
}

fn held(alloc: Global, sets: Positions) -> Result<Box<Positions>, Stop> {
    Ok(Box::new(alloc, sets)?)
}

fn one(alloc: Global, test: &Pred) -> Result<Box<Positions>, Stop> {
    held(alloc, Positions::one(alloc, test)?)
}

fn again(alloc: Global, inner: Box<Positions>) -> Result<Box<Positions>, Stop> {
    held(alloc, Box::into_inner(inner).star())
}

fn in_sequence(
    alloc: Global,
    first: Box<Positions>,
    second: Box<Positions>,
) -> Result<Box<Positions>, Stop> {
    if first.count() + second.count() > MAX_POSITIONS {
        return Err(Stop::Size);
    }
    held(alloc, Box::into_inner(first).then(Box::into_inner(second))?)
}

fn in_choice(
    alloc: Global,
    first: Box<Positions>,
    second: Box<Positions>,
) -> Result<Box<Positions>, Stop> {
    if first.count() + second.count() > MAX_POSITIONS {
        return Err(Stop::Size);
    }
    held(alloc, Box::into_inner(first).or(Box::into_inner(second))?)
}

/// Whether both have the same sets, and keep the same tests at the same places.
fn are_same(one: &Positions, other: &Positions) -> bool {
    let ends = (one.nullable(), one.first(), one.last());
    if ends != (other.nullable(), other.first(), other.last()) || one.count() != other.count() {
        return false;
    }
    for position in 0..one.count() {
        if one.follow(position) != other.follow(position) {
            return false;
        }
    }
    keep_same(one, other)
}

fn keep_same(one: &Positions, other: &Positions) -> bool {
    let (kept, others) = (one.preds(), other.preds());
    for place in 0..kept.distinct().len() {
        if others.distinct().place_of(kept.distinct().get(place)) != Some(place)
            || kept.positions_of(place) != others.positions_of(place)
        {
            return false;
        }
    }
    kept.distinct().len() == others.distinct().len()
}
