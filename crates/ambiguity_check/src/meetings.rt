//! Which positions of two automata some item of the stream meets together.
ghost use Rattle.std.specs.Prelude.{◌≡◌, ◌<◌, ℕ, IfOk, length};
ghost use Rattle.rate_expr.specs.Sets.{Has};
ghost use Rattle.ambiguity_check.specs.Meetings.{AreMeetings, IsJoined};

use rate_expr::masks::{lowest, without_lowest};
use std::alloc::{AllocError, Global};
use symbolic_nfa::Nfa;

/// For each position of the first automaton, the positions of the second that some item meets
/// together with it.
pub(crate) fn meetings(alloc: Global, first: &Nfa, second: &Nfa) -> Result<Vec<u128>, AllocError>
    requires { first.now.cells ≡ second.now.cells }
    ensures { IfOk result (λ rows.
        AreMeetings first.now.cells.layout.columns first.now.sets second.now.sets rows.items) }
{
    let mut rows = vec![in alloc; 0u128; first.count() as usize]?;
    let mut before = (0, 0);
    'cells: for cell in 0..first.cells().count() {
        let met = (first.met_by(cell), second.met_by(cell));
        if met != before {
            join(&mut rows, met.0, met.1);
            before = met;
        }
    }
    Ok(rows)
}

// Adds the positions in the second mask to the rows of the positions in the first.
fn join(rows: &mut [u128], first: u128, second: u128)
    requires { (place : ℕ) → Has first place → place < length rows.old }
    ensures { IsJoined rows.old first second rows.new }
{
    let mut rest = first;
    'places: while rest != 0 {
        rows[lowest(rest) as usize] |= second;
        rest = without_lowest(rest);
    }
}
