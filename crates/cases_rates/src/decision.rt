//! What is decided about rates.

ghost use Rattle.std.specs.Prelude.{◌≡◌};

use crate::automata::{Automata, automata_of};
use crate::stop::Stop;
use ambiguity_check::{disjoint, one_factoring, one_split};
use predicate_cells::Cells;
use rate_equal::{all_but_empty, same};
use rate_expr::Rate;
use std::alloc::Global;
use std::rc::Rc;

#[derive(Clone, Copy)]
pub(crate) enum Decision {
    Disjoint,
    OneSplit,
    /// Of the first rate alone.
    OneFactoring,
    Same,
    /// Of the first rate alone.
    AllButEmpty,
}

impl Decision {
    /// The decision on the rates.
    pub(crate) fn on(
        self,
        alloc: Global,
        cells: &Rc<Cells>,
        first: &Rate,
        second: &Rate,
    ) -> Result<bool, Stop> {
        let automata = automata_of(alloc, cells, first, second)?;
        self.on_automata(alloc, &automata)
    }

    fn on_automata(self, alloc: Global, automata: &Automata) -> Result<bool, Stop>
        requires { automata.now.first.cells ≡ automata.now.second.cells }
    {
        let (first, second) = (&automata.first, &automata.second);
        match self {
            Decision::Disjoint => Ok(disjoint(alloc, first, second)?),
            Decision::OneSplit => Ok(one_split(alloc, first, second)?),
            Decision::OneFactoring => Ok(one_factoring(alloc, first)?),
            Decision::Same => Ok(same(alloc, first, second)?),
            Decision::AllButEmpty => Ok(all_but_empty(alloc, first)?),
        }
    }

    /// The decision as a word.
    pub(crate) fn reported(
        self,
        alloc: Global,
        cells: &Rc<Cells>,
        first: &Rate,
        second: &Rate,
    ) -> Result<&'static str, Stop> {
        match self.on(alloc, cells, first, second) {
            Ok(true) => Ok("yes"),
            Ok(false) => Ok("no"),
            Err(Stop::Reach) => Ok("too many states"),
            Err(stop) => Err(stop),
        }
    }
}
