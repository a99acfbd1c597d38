//! The fronts of a word that are in a rate.
ghost use Rattle.std.specs.Prelude.{◌≤◌, IfOk};
ghost use Rattle.language_base.specs.Limits.{max_positions};
ghost use Rattle.rate_expr.specs.Plain as rates;
ghost use Rattle.rate_expr.specs.Rates.{size_of};
ghost use Rattle.slow_eval.specs.Fronts.{AreAfter, AreInRate, AreMet, AreSpelled};

use item_schema::Item;
use predicates::holds;
use rate_expr::masks::{has, only, overlap};
use rate_expr::{Positions, Rate};
use std::alloc::{AllocError, Global};

/// For each front of the word, from the empty one to the whole, whether it is in the rate. The time
/// is linear in the length of the word.
pub(crate) fn fronts_in(alloc: Global, rate: &Rate, word: &[Item]) -> Result<Vec<bool>, AllocError>
    requires { size_of (rates.plain_of rate.now) ≤ max_positions }
    ensures { IfOk result (λ fronts.
        AreInRate (rates.plain_of rate.now) word.now fronts.items) }
{
    let positions = Positions::of(alloc, rate)?;
    let fronts = fronts_by(alloc, &positions, word)?;
    Ok(fronts)
}

/// The same by the positions of the rate.
fn fronts_by(alloc: Global, positions: &Positions, word: &[Item]) -> Result<Vec<bool>, AllocError>
    ensures { IfOk result (λ fronts. AreSpelled positions.now word.now fronts.items) }
{
    let mut fronts = Vec::new(alloc);
    fronts.push(positions.nullable())?;
    let mut ways = positions.first();
    'items: for item in word {
        let ends = met(positions, ways, item);
        fronts.push(overlap(ends, positions.last()))?;
        ways = after(positions, ends);
    }
    Ok(fronts)
}

fn met(positions: &Positions, mask: u128, item: &Item) -> u128
    ensures { AreMet positions.now mask item.now result }
{
    let mut found = 0;
    'positions: for position in 0..positions.count() {
        if has(mask, position) && holds(positions.pred(position), item) {
            found |= only(position);
        }
    }
    found
}

/// The positions that may follow some position of the mask.
fn after(positions: &Positions, mask: u128) -> u128
    ensures { AreAfter positions.now mask result }
{
    let mut found = 0;
    'positions: for position in 0..positions.count() {
        if has(mask, position) {
            found |= positions.follow(position);
        }
    }
    found
}
