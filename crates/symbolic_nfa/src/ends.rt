//! From which positions a word can come to an end.
ghost use Rattle.std.specs.Prelude.{ℕ, ◌<◌, ◌^◌, ◌↔◌, length};
ghost use Rattle.rate_expr.specs.Sets.{Has};
ghost use Rattle.symbolic_nfa.specs.Ends.{ComesBefore, EndsThrough};

use rate_expr::Positions;
use rate_expr::masks::{only, overlap};

// The positions from which a path within the mask leads to a position where words may end.
pub(crate) fn ending_through(positions: &Positions, mask: u128) -> u128
    ensures { (position : ℕ) → Has result position ↔ EndsThrough positions.now mask position }
{
    let mut ending = 0;
    let mut found = mask & positions.last();
    'rounds: while found != ending {
        ending = found;
        found |= mask & before(positions, ending);
    }
    ending
}

// The positions that some target may follow.
pub(crate) fn before(positions: &Positions, targets: u128) -> u128
    ensures exact { (position : ℕ) → Has result position
        ↔ ComesBefore positions.now targets position }
    ensures within { result < 2 ^ length positions.now.preds }
{
    let mut found = 0;
    'positions: for position in 0..positions.count() {
        if overlap(positions.follow(position), targets) {
            found |= only(position);
        }
    }
    found
}
