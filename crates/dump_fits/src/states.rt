//! Whether a state has positions of a rate alone.
ghost use Rattle.std.specs.Prelude.{◌↔◌, IsTrue};
ghost use Rattle.rate_expr.specs.Plain.{plain_of};
ghost use Rattle.eval_snapshot.specs.Fits.{FitsState};

use rate_expr::masks::end_of;
use rate_expr::{Rate, State};

pub(crate) fn fits_state(rate: &Rate, state: State) -> bool
    ensures { IsTrue result ↔ FitsState (plain_of rate.now) state }
{
    match state {
        State::Initial => true,
        State::At(mask) => end_of(mask) <= rate.positions(),
    }
}
