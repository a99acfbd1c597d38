//! The automaton of a rate over the cells of a stream.
//!
//! The positions of the rate are the bits of a mask. A word leads from the initial state to the
//! mask of the positions at which some reading of the word ends. One more item takes two steps:
//!
//!     state --(follow sets)--> positions that may be next --(cell of the item)--> next state
//!
//! The first step depends on the state alone: its result is the **ways on** from the state. The
//! second step is one `and` with the positions that the items of the cell meet.
ghost use Rattle.std.specs.Prelude.{◌≡◌, ◌<◌, ◌↔◌, List, IsTrue, IfOk, length};
ghost use Rattle.value_ops.specs.declared.field.Field.{Field};
ghost use Rattle.predicate_cells.specs.Cells.{cell_count, IsIn};
ghost use Rattle.rate_expr.specs.After.{IsStateOf};
ghost use Rattle.rate_expr.specs.Sets.{AreSets};
ghost use Rattle.rate_expr.specs.declared.state.State.{State};
ghost use Rattle.symbolic_nfa.specs.Automata.{AreDecided};
ghost use Rattle.symbolic_nfa.specs.States.{AreWaysOn, Extends, IsAccepted, IsMetBy, Steps};

use crate::ends::{before, ending_through};
use crate::met_positions::{met_by_cells, union_of};
use crate::ways_on::ways_on;
use predicate_cells::Cells;
use rate_expr::masks::{end_of, overlap};
use rate_expr::{Positions, State};
use std::alloc::{AllocError, Global};
use std::marker::Model;
use std::rc::Rc;

/// A position automaton whose letters are cells, seen as the sets of its positions and the cells.
/// It is one pointer, so that a type which may hold an automaton stays small.
#[derive(Drop)]
pub struct Nfa {
    parts: Box<Parts>,
}

#[derive(Drop)]
struct Parts {
    positions: Positions,
    cells: Rc<Cells>,
    // For each cell, the positions whose predicates its items meet.
    met: Vec<u128>,
    // The positions from which a word can be extended to a word of the rate.
    growing: u128,
    // Whether some word of at least one item of the stream is in the rate.
    begins: bool,
}

impl Model for Nfa {
    ghost use Rattle.std.specs.Coded.{codes};
    ghost use Rattle.predicates.specs.Coding.{coded_predicate};
    ghost use Rattle.symbolic_nfa.specs.Automata.{Automaton};
    ghost use Rattle.symbolic_nfa.specs.Tables.{AreTables};

    ghost Value = { Automaton };

    ghost coded = { Prim.hlevel (codes, coded_predicate) };

    ghost view = { λ n. record {
      sets = n.parts.value.positions;
      cells = n.parts.value.cells.value;
    } };

    ghost invariant = { λ n. let parts = n.parts.value in
        AreTables (record { sets = parts.positions; cells = parts.cells.value })
        parts.met.items parts.growing parts.begins };
}

impl Nfa {
    /// Takes over the positions, and shares the cells with their other owners.
    pub fn new(alloc: Global, positions: Positions, cells: &Rc<Cells>) -> Result<Nfa, AllocError>
        requires { AreDecided positions cells.now.value }
        ensures { IfOk result (λ nfa. nfa ≡ record { sets = positions; cells = cells.now.value }) }
    {
        let met = met_by_cells(alloc, &positions, cells.as_ref())?;
        let useful = ending_through(&positions, union_of(&met));
        let growing = before(&positions, useful);
        let begins = overlap(positions.first(), useful);
        let parts = Parts {
            positions,
            cells: cells.clone()?,
            met,
            growing,
            begins,
        };
        Ok(Nfa {
            parts: Box::new(alloc, parts)?,
        })
    }

    /// Whether `new` may be called: the cells were made with the predicate of each position.
    pub fn can_read(positions: &Positions, cells: &Cells) -> bool
        ensures { IsTrue result ↔ AreDecided positions.now cells.now }
    {
        let preds = positions.preds().distinct();
        'places: for place in 0..preds.len() {
            if !cells.decides(preds.get(place)) {
                return false;
            }
        }
        true
    }

    /// A copy that shares the cells.
    pub fn try_copy(&self, alloc: Global) -> Result<Nfa, AllocError>
        ensures { IfOk result (λ copy. copy ≡ self.now) }
    {
        let parts = Parts {
            met: Vec::from_slice(alloc, &self.parts.met)?,
            cells: self.parts.cells.clone()?,
            positions: self.parts.positions.try_copy(alloc)?,
            growing: self.parts.growing,
            begins: self.parts.begins,
        };
        Ok(Nfa {
            parts: Box::new(alloc, parts)?,
        })
    }

    /// How many positions there are. The initial state is not one of them.
    pub fn count(&self) -> u32
        ensures count { result ≡ length self.now.sets.preds }
        ensures sets { AreSets self.now.sets }
        ensures decided { AreDecided self.now.sets self.now.cells }
    {
        self.parts.positions.count()
    }

    pub fn positions(&self) -> &Positions
        ensures { result.now ≡ self.now.sets }
    {
        &self.parts.positions
    }

    /// Gives back the positions that `new` took over.
    pub fn into_positions(self) -> Positions
        ensures { result ≡ self.sets }
    {
        Box::into_inner(self.parts).positions
    }

    pub fn cells(&self) -> &Cells
        ensures { result.now ≡ self.now.cells }
    {
        self.parts.cells.as_ref()
    }

    /// Looked up in a table that `new` made.
    pub fn met_by(&self, cell: u32) -> u128
        requires { cell < cell_count self.now.cells }
        ensures { IsMetBy self.now cell result }
    {
        self.parts.met[cell as usize]
    }

    /// Whether the state's positions exist.
    pub fn has_state(&self, state: State) -> bool
        ensures { IsTrue result ↔ IsStateOf self.now.sets state }
    {
        match state {
            State::Initial => true,
            State::At(mask) => end_of(mask) <= self.count(),
        }
    }

    /// The positions that may be next after the state, whatever the next item is.
    pub fn ways_on(&self, state: State) -> u128
        requires { IsStateOf self.now.sets state }
        ensures { AreWaysOn self.now.sets state result }
    {
        ways_on(&self.parts.positions, state)
    }

    /// The state after one more item of the cell, from a state whose ways on are known. This is for
    /// trying several cells from one state.
    pub fn step_along(&self, ways: u128, cell: u32) -> State
        requires { cell < cell_count self.now.cells }
        ensures steps { (state : State) → AreWaysOn self.now.sets state ways
            → (item : List Field) → IsIn self.now.cells cell item
            → Steps self.now.sets state item result }
        ensures state { IsStateOf self.now.sets result }
    {
        State::At(ways & self.parts.met[cell as usize])
    }

    /// The state after one more item of the cell.
    pub fn step(&self, state: State, cell: u32) -> State
        requires state { IsStateOf self.now.sets state }
        requires cell { cell < cell_count self.now.cells }
        ensures steps { (item : List Field) → IsIn self.now.cells cell item
            → Steps self.now.sets state item result }
        ensures state { IsStateOf self.now.sets result }
    {
        self.step_along(self.ways_on(state), cell)
    }

    /// Whether the words that lead to the state are in the rate.
    pub fn accepts(&self, state: State) -> bool
        ensures { IsTrue result ↔ IsAccepted self.now.sets state }
    {
        match state {
            State::Initial => self.parts.positions.nullable(),
            State::At(mask) => overlap(mask, self.parts.positions.last()),
        }
    }

    /// Whether the words that lead to the state can be extended, by at least one item of the
    /// stream, to words of the rate.
    pub fn extends(&self, state: State) -> bool
        ensures { IsTrue result ↔ Extends self.now state }
    {
        match state {
            State::Initial => self.parts.begins,
            State::At(mask) => overlap(mask, self.parts.growing),
        }
    }
}
