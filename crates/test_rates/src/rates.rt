// What no clause says: that positions, masks and copies are made at all. The masks were found by
// hand. The program cases_rates goes through a table of rates and their sets.
use crate::assertions::{holds, same};
use crate::fixtures::{boxed, held, item, sets_of};
use predicates::Pred;
use rate_expr::masks::{end_of, has, lowest, only, overlap, without_lowest};
use rate_expr::{
    MAX_POSITIONS, Positions, Rate, State, each_word_is_in_or_not, one_automaton_of_a_rate,
    one_state_after_a_word, sets_spell_their_rate,
};
use std::alloc::{AllocError, Global};
use std::process::Abort;
use std::test::Fail;

// A small number, and then one in another column.
fn two_items(alloc: Global) -> Result<Box<Rate>, AllocError> {
    let first = item(alloc, Pred::Lt(0, 5))?;
    let second = item(alloc, Pred::IsNum(3))?;
    boxed(alloc, Rate::Seq(first, second))
}

// A copy of the sets of a rate, which themselves are dropped by then.
fn copied_sets(rt: &impl Abort, alloc: Global, rate: &Rate) -> Result<Box<Positions>, AllocError> {
    let sets = sets_of(rt, alloc, rate)?;
    held(alloc, sets.try_copy(alloc)?)
}

fn follow_each_other(rt: &impl Abort, sets: &Positions, wanted: (u128, u128)) {
    holds(rt, sets.count() == 2);
    same(rt, (sets.follow(0), sets.follow(1)), wanted);
}

fn have_tests(rt: &impl Abort, sets: &Positions) {
    holds(rt, sets.count() == 2);
    holds(rt, matches!(sets.pred(0), Pred::Lt(0, 5)));
    holds(rt, matches!(sets.pred(1), Pred::IsNum(3)));
}

#[test]
fn a_sequence_continues_from_its_first_part(rt: HostRuntime) -> Result<(), Fail> {
    let rate = two_items(rt.alloc())?;
    let sets = copied_sets(&rt, rt.alloc(), &rate)?;
    let ends = (sets.nullable(), sets.first(), sets.last());
    same(&rt, ends, (false, 0b_01, 0b_10));
    follow_each_other(&rt, &sets, (0b_10, 0));
    have_tests(&rt, &sets);
    Ok(())
}

// The position of an item of the number.
fn position_of(alloc: Global, number: i64) -> Result<Positions, AllocError> {
    let test = Pred::Eq(0, number);
    Positions::one(alloc, &test)
}

fn item_or_none(rt: &impl Abort, alloc: Global) -> Result<Positions, AllocError> {
    let one = position_of(alloc, 1)?;
    let empty = Positions::empty(alloc);
    holds(rt, empty.count() + one.count() <= MAX_POSITIONS);
    empty.or(one)
}

// An item or none, and then another item.
fn parts_in_sequence(rt: &impl Abort, alloc: Global) -> Result<Positions, AllocError> {
    let either = item_or_none(rt, alloc)?;
    let next = position_of(alloc, 2)?;
    holds(rt, either.count() + next.count() <= MAX_POSITIONS);
    either.then(next)
}

// The same, again and again.
fn repeated_parts(rt: &impl Abort, alloc: Global) -> Result<Box<Positions>, AllocError> {
    held(alloc, parts_in_sequence(rt, alloc)?.star())
}

#[test]
fn parts_make_the_positions_of_a_rate(rt: HostRuntime) -> Result<(), Fail> {
    let sets = repeated_parts(&rt, rt.alloc())?;
    let ends = (sets.nullable(), sets.first(), sets.last());
    same(&rt, ends, (true, 0b_11, 0b_10));
    follow_each_other(&rt, &sets, (0b_10, 0b_11));
    Ok(())
}

// 300 items in sequence.
fn many_items(alloc: Global) -> Result<Box<Rate>, AllocError> {
    let mut rate = boxed(alloc, Rate::Empty)?;
    for _ in 0..300 {
        let next = item(alloc, Pred::Any)?;
        rate = boxed(alloc, Rate::Seq(rate, next))?;
    }
    Ok(rate)
}

// The same items, and then a copy of them.
fn twice_as_many_items(alloc: Global) -> Result<Box<Rate>, AllocError> {
    let rate = many_items(alloc)?;
    let copy = boxed(alloc, rate.try_copy(alloc)?)?;
    boxed(alloc, Rate::Seq(copy, rate))
}

#[test]
fn positions_are_counted_in_a_copy_too(rt: HostRuntime) -> Result<(), Fail> {
    let both = twice_as_many_items(rt.alloc())?;
    same(&rt, both.positions(), 600);
    Ok(())
}

// Both items, and then the first one again.
fn three_items(alloc: Global) -> Result<Box<Rate>, AllocError> {
    let both = two_items(alloc)?;
    let third = item(alloc, Pred::Lt(0, 5))?;
    boxed(alloc, Rate::Seq(both, third))
}

fn have_two_preds(rt: &impl Abort, sets: &Positions) {
    let preds = sets.preds();
    holds(rt, preds.distinct().len() == 2);
    holds(rt, matches!(preds.distinct().get(0), Pred::Lt(0, 5)));
    let positions = (preds.positions_of(0), preds.positions_of(1));
    same(rt, positions, (0b_101, 0b_010));
}

#[test]
fn two_equal_predicates_are_kept_once(rt: HostRuntime) -> Result<(), Fail> {
    let rate = three_items(rt.alloc())?;
    let sets = copied_sets(&rt, rt.alloc(), &rate)?;
    have_two_preds(&rt, &sets);
    Ok(())
}

#[test]
fn a_mask_has_its_positions(rt: HostRuntime) {
    let mask = only(127) | only(3) | only(0);
    holds(&rt, mask == (1 << 127) | 9);
    let found = (has(mask, 127), has(mask, 0), has(mask, 1), has(mask, 128));
    same(&rt, found, (true, true, false, false));
    same(&rt, (end_of(mask), end_of(9), end_of(0)), (128, 4, 0));
    same(&rt, (overlap(mask, 8), overlap(mask, 6)), (true, false));
    same(&rt, (lowest(mask), lowest(1 << 127)), (0, 127));
    same(&rt, without_lowest(mask), (1 << 127) | 8);
}

#[test]
fn states_are_compared_by_their_positions(rt: HostRuntime) {
    assert!(rt; State::At(0b_11) == State::At(0b_11) && State::At(0) != State::Initial);
}

#[test]
fn laws_can_be_called() {
    each_word_is_in_or_not();
    one_automaton_of_a_rate();
    one_state_after_a_word();
    sets_spell_their_rate();
}
