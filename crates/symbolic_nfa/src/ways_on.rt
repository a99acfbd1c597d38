//! The positions that may be next after a state.
ghost use Rattle.std.specs.Prelude.{◌<◌, ◌^◌, length};
ghost use Rattle.rate_expr.specs.After.{IsStateOf};
ghost use Rattle.rate_expr.specs.Sets.{AreSets};
ghost use Rattle.symbolic_nfa.specs.States.{AreWaysOn};

use rate_expr::masks::{lowest, without_lowest};
use rate_expr::{Positions, State};

pub(crate) fn ways_on(positions: &Positions, state: State) -> u128
    requires sets { AreSets positions.now }
    requires state { IsStateOf positions.now state }
    ensures { AreWaysOn positions.now state result }
{
    match state {
        State::Initial => positions.first(),
        State::At(mask) => after(positions, mask),
    }
}

// The positions that may follow some position of the mask.
fn after(positions: &Positions, mask: u128) -> u128
    requires sets { AreSets positions.now }
    requires state { mask < 2 ^ length positions.now.preds }
    ensures { AreWaysOn positions.now (State.At mask) result }
{
    let mut found = 0;
    let mut rest = mask;
    'positions: while rest != 0 {
        found |= positions.follow(lowest(rest));
        rest = without_lowest(rest);
    }
    found
}
