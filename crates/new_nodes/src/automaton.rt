//! The automaton of a collect's rate, over the cells of its stream.
ghost use Rattle.std.specs.Prelude.{◌≡◌, [], List, IfOk};
ghost use Rattle.std.specs.Option.{option_copied, option_map};
ghost use Rattle.std.specs.Rc.{rc_value};
ghost use Rattle.item_schema.specs.declared.column.Column.{Column};
ghost use Rattle.rate_expr.specs.FirstLastFollow.{AreSetsOf};
ghost use Rattle.rate_expr.specs.Plain.{plain_of};
ghost use Rattle.eval_nodes.specs.Streams.{AreColumnsOf, CanRead, CanReadWith};

use eval_nodes::Progress;
use map_collect::Tracks;
use predicate_cells::Cells;
use rate_expr::{Positions, Rate};
use std::alloc::{AllocError, Global};
use std::rc::Rc;
use symbolic_nfa::Nfa;

/// The automaton, without a start yet. Where there is a collect, there are cells.
pub fn no_tracks(
    alloc: Global,
    rate: &Rate,
    cells: Option<&Rc<Cells>>,
) -> Result<Tracks<Progress>, AllocError>
    requires { CanReadWith (option_map rc_value (option_copied cells)) (plain_of rate.now) }
    ensures rate { IfOk result (λ all. AreSetsOf all.nfa.sets (plain_of rate.now)) }
    ensures columns { IfOk result (λ all. (columns : List Column)
        → AreColumnsOf (option_map rc_value (option_copied cells.entry)) columns
        → all.nfa.cells.layout.columns ≡ columns) }
    ensures none { IfOk result (λ all. all.tracks ≡ []) }
{
    match cells {
        Some(cells) => {
            let nfa = automaton(alloc, rate, cells)?;
            Ok(Tracks::new(alloc, nfa))
        }
        None => unreachable!(),
    }
}

fn automaton(alloc: Global, rate: &Rate, cells: &Rc<Cells>) -> Result<Nfa, AllocError>
    requires { CanRead (rc_value cells.now) (plain_of rate.now) }
    ensures rate { IfOk result (λ nfa. AreSetsOf nfa.sets (plain_of rate.now)) }
    ensures cells { IfOk result (λ nfa. nfa.cells ≡ rc_value cells.now) }
{
    let positions = Positions::of(alloc, rate)?;
    Nfa::new(alloc, positions, cells)
}
