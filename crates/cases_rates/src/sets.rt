//! The first, last and follow sets of a rate.

use crate::automata::positions_of;
use crate::stop::Stop;
use rate_expr::masks::has;
use rate_expr::{MAX_POSITIONS, Positions, Rate};
use std::alloc::{AllocError, Global};

/// The sets of the rate, printed from a copy.
pub(crate) fn sets_of(alloc: Global, rate: &Rate) -> Result<String, Stop> {
    let sets = copied_sets(alloc, rate)?;
    let mut reported = String::new(alloc);
    push_sets(&mut reported, &sets)?;
    Ok(reported)
}

fn copied_sets(alloc: Global, rate: &Rate) -> Result<Positions, Stop> {
    let sets = positions_of(alloc, rate)?;
    Ok(sets.try_copy(alloc)?)
}

fn push_sets(reported: &mut String, sets: &Positions) -> Result<(), AllocError> {
    if sets.nullable() {
        reported.push_str("nullable, ")?;
    }
    reported.push_str("first ")?;
    push_set(reported, sets.first())?;
    reported.push_str(", last ")?;
    push_set(reported, sets.last())?;
    reported.push_str(", follow")?;
    push_follows(reported, sets)
}

/// Appends the follow set of each position.
fn push_follows(reported: &mut String, sets: &Positions) -> Result<(), AllocError> {
    for position in 0..sets.count() {
        reported.push_str(" ")?;
        push_set(reported, sets.follow(position))?;
    }
    Ok(())
}

/// Appends the positions of the mask.
fn push_set(reported: &mut String, mask: u128) -> Result<(), AllocError> {
    if mask == 0 {
        return reported.push_str("-");
    }
    let mut sign = "";
    for position in 0..MAX_POSITIONS {
        if has(mask, position) {
            write!(reported, "{sign}{position}")?;
            sign = "+";
        }
    }
    Ok(())
}
