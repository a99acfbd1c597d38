// What no clause says: that automata and copies are made at all, and what they answer after a word.
// The program cases_rates goes through a table of rates and words.
use crate::assertions::{holds, same};
use crate::fixtures::{boxed, item, items, sets_of};
use crate::one_number::{any_item, cells_under, nfa_of, numbers};
use item_schema::Item;
use predicate_cells::{CellStop, Cells};
use predicates::{Pred, Preds};
use rate_expr::{Positions, Rate};
use std::alloc::{AllocError, Global};
use std::process::Abort;
use std::rc::Rc;
use std::test::Fail;
use symbolic_nfa::{
    Nfa, State, acceptance_is_membership, extending_is_having_an_extension, steps_lead_on,
};
use value_ops::Field;

fn add_test(preds: &mut Preds, number: i64) -> Result<(), AllocError> {
    let test = Pred::Eq(0, number);
    preds.add(&test)
}

// Whether it is an item, and whether it is the number.
fn preds(alloc: Global, number: i64) -> Result<Preds, AllocError> {
    let mut preds = any_item(alloc)?;
    add_test(&mut preds, number)?;
    Ok(preds)
}

// The cells of a stream of numbers that distinguish one number from all others.
fn cells_with(rt: &impl Abort, alloc: Global, number: i64) -> Result<Rc<Cells>, CellStop> {
    let schema = numbers(alloc)?;
    let preds = preds(alloc, number)?;
    cells_under(rt, alloc, &schema, &preds)
}

// Words that end with 1.
fn rate(alloc: Global) -> Result<Box<Rate>, AllocError> {
    let items = items(alloc)?;
    let one = item(alloc, Pred::Eq(0, 1))?;
    boxed(alloc, Rate::Seq(items, one))
}

fn positions(rt: &impl Abort, alloc: Global) -> Result<Box<Positions>, AllocError> {
    let rate = rate(alloc)?;
    sets_of(rt, alloc, &rate)
}

fn nfa(rt: &impl Abort, alloc: Global) -> Result<Nfa, CellStop> {
    let rate = rate(alloc)?;
    let cells = cells_with(rt, alloc, 1)?;
    Ok(nfa_of(rt, alloc, &cells, &rate)?)
}

// A copy of the automaton, which itself is dropped by then.
fn copied(rt: &impl Abort, alloc: Global) -> Result<Nfa, CellStop> {
    let nfa = nfa(rt, alloc)?;
    Ok(nfa.try_copy(alloc)?)
}

fn item_of(alloc: Global, number: i64) -> Result<Item<'static>, AllocError> {
    let mut fields = Vec::new(alloc);
    fields.push(Field::Int(number))?;
    Ok(Item::from_fields(fields))
}

// The cell of items of the number.
fn cell_of(alloc: Global, nfa: &Nfa, number: i64) -> Result<u32, AllocError> {
    let item = item_of(alloc, number)?;
    Ok(nfa.cells().of(&item))
}

#[test]
fn cells_are_read_where_they_know_each_predicate(rt: HostRuntime) -> Result<(), Fail> {
    let positions = positions(&rt, rt.alloc())?;
    let cells = cells_with(&rt, rt.alloc(), 2)?;
    same(&rt, Nfa::can_read(&positions, cells.as_ref()), false);
    Ok(())
}

// The state after an item of the cell.
fn state_after(rt: &impl Abort, nfa: &Nfa, cell: u32) -> State {
    holds(rt, cell < nfa.cells().count());
    holds(rt, nfa.has_state(State::Initial));
    nfa.step(State::Initial, cell)
}

#[test]
fn states_answer_for_the_words_after_them(rt: HostRuntime) -> Result<(), Fail> {
    let nfa = nfa(&rt, rt.alloc())?;
    let cell = cell_of(rt.alloc(), &nfa, 1)?;
    let state = state_after(&rt, &nfa, cell);
    let accepted = (nfa.accepts(State::Initial), nfa.accepts(state));
    same(&rt, accepted, (false, true));
    same(&rt, nfa.extends(state), true);
    Ok(())
}

// From the initial state both positions may come next, and items of the cell meet only the first.
fn continues_in_the_first(rt: &impl Abort, nfa: &Nfa, cell: u32) {
    holds(rt, nfa.has_state(State::Initial));
    let ways = nfa.ways_on(State::Initial);
    same(rt, ways, 0b_11);
    holds(rt, cell < nfa.cells().count());
    same(rt, nfa.step_along(ways, cell), State::At(0b_01));
}

#[test]
fn ways_on_are_found_once_for_all_items(rt: HostRuntime) -> Result<(), Fail> {
    let nfa = nfa(&rt, rt.alloc())?;
    let cell = cell_of(rt.alloc(), &nfa, 2)?;
    continues_in_the_first(&rt, &nfa, cell);
    Ok(())
}

// There are two positions, and items of the cell meet both.
fn has_two_positions(rt: &impl Abort, nfa: &Nfa, cell: u32) {
    holds(rt, cell < nfa.cells().count());
    same(rt, nfa.met_by(cell), 0b_11);
    let states = (
        nfa.has_state(State::At(0b_11)),
        nfa.has_state(State::At(0b_100)),
    );
    same(rt, states, (true, false));
    same(rt, (nfa.count(), nfa.positions().count()), (2, 2));
}

#[test]
fn a_copy_has_the_same_positions_and_cells(rt: HostRuntime) -> Result<(), Fail> {
    let copy = copied(&rt, rt.alloc())?;
    let cell = cell_of(rt.alloc(), &copy, 1)?;
    has_two_positions(&rt, &copy, cell);
    Ok(())
}

fn ends_of(nfa: Nfa) -> (u128, u128) {
    let positions = nfa.into_positions();
    (positions.first(), positions.last())
}

#[test]
fn an_automaton_gives_its_positions_back(rt: HostRuntime) -> Result<(), Fail> {
    let ends = ends_of(nfa(&rt, rt.alloc())?);
    same(&rt, ends, (0b_11, 0b_10));
    Ok(())
}

#[test]
fn laws_can_be_called() {
    steps_lead_on();
    acceptance_is_membership();
    extending_is_having_an_extension();
}
