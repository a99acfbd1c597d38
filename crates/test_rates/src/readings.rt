// What no clause says: that answers and levels are found at all. The program cases_rates goes
// through tables of rates and the answers on them.
use crate::assertions::same;
use crate::fixtures::{Rates, boxed, item, item_and_items, items};
use crate::one_number::{automata_of, nfa};
use ambiguity_check::{Pairs, Phase, Search, Splits, disjoint, one_factoring, one_split};
use predicate_cells::CellStop;
use predicates::Pred;
use rate_expr::Rate;
use std::alloc::{AllocError, Global};
use std::process::Abort;
use std::test::Fail;
use symbolic_nfa::Nfa;

fn have_none_in_common(
    rt: &impl Abort,
    alloc: Global,
    first: &Rate,
    second: &Rate,
) -> Result<bool, CellStop> {
    let automata = automata_of(rt, alloc, first, second)?;
    Ok(disjoint(alloc, &automata.first, &automata.second)?)
}

fn split_in_one_way(
    rt: &impl Abort,
    alloc: Global,
    first: &Rate,
    second: &Rate,
) -> Result<bool, CellStop> {
    let automata = automata_of(rt, alloc, first, second)?;
    Ok(one_split(alloc, &automata.first, &automata.second)?)
}

fn factor_in_one_way(rt: &impl Abort, alloc: Global, rate: &Rate) -> Result<bool, CellStop> {
    let piece = nfa(rt, alloc, rate)?;
    Ok(one_factoring(alloc, &piece)?)
}

// The empty word is no item, and an item is a word of items.
fn is_item_of_items_alone(rt: &impl Abort, alloc: Global, rates: &Rates) -> Result<(), CellStop> {
    let empty = boxed(alloc, Rate::Empty)?;
    let none_empty = have_none_in_common(rt, alloc, &empty, &rates.item)?;
    let none_of_items = have_none_in_common(rt, alloc, &rates.items, &rates.item)?;
    same(rt, (none_empty, none_of_items), (true, false));
    Ok(())
}

#[test]
fn rates_have_words_in_common_or_none(rt: HostRuntime) -> Result<(), Fail> {
    let rates = item_and_items(rt.alloc())?;
    is_item_of_items_alone(&rt, rt.alloc(), &rates)?;
    Ok(())
}

// Items split before the last one, and anywhere before other items.
fn split_before_one(rt: &impl Abort, alloc: Global, rates: &Rates) -> Result<(), CellStop> {
    let before_one = split_in_one_way(rt, alloc, &rates.items, &rates.item)?;
    let before_items = split_in_one_way(rt, alloc, &rates.items, &rates.items)?;
    same(rt, (before_one, before_items), (true, false));
    Ok(())
}

#[test]
fn words_split_in_one_way_or_more(rt: HostRuntime) -> Result<(), Fail> {
    let rates = item_and_items(rt.alloc())?;
    split_before_one(&rt, rt.alloc(), &rates)?;
    Ok(())
}

// Words factor into single items in one way, and into words of items in many.
fn factor_into_single(rt: &impl Abort, alloc: Global, rates: &Rates) -> Result<(), CellStop> {
    let into_single = factor_in_one_way(rt, alloc, &rates.item)?;
    let into_words = factor_in_one_way(rt, alloc, &rates.items)?;
    same(rt, (into_single, into_words), (true, false));
    Ok(())
}

#[test]
fn words_factor_in_one_way_or_more(rt: HostRuntime) -> Result<(), Fail> {
    let rates = item_and_items(rt.alloc())?;
    factor_into_single(&rt, rt.alloc(), &rates)?;
    Ok(())
}

// Both automata have only words of one item, so the search is over after it.
fn is_over_after_one(rt: &impl Abort, alloc: Global, item: &Nfa) -> Result<(), AllocError> {
    let pairs = Pairs::new(alloc, item, item)?;
    let mut search = Search::begin(alloc, &pairs)?;
    same(rt, search.latest().row(Phase::Together, 0), 1);
    search.advance(&pairs);
    same(rt, search.is_over(), true);
    Ok(())
}

#[test]
fn a_search_is_over_where_nothing_is_new(rt: HostRuntime) -> Result<(), Fail> {
    let rate = item(rt.alloc(), Pred::Any)?;
    let item = nfa(&rt, rt.alloc(), &rate)?;
    is_over_after_one(&rt, rt.alloc(), &item)?;
    Ok(())
}

// The first item is in the first part of both splits, or in the second part of the left one only.
// The next item may be in the second part of both.
fn rejoins_after_one(rt: &impl Abort, alloc: Global, items: &Nfa) -> Result<(), AllocError> {
    let splits = Splits::new(alloc, items, items)?;
    let mut search = Search::begin(alloc, &splits)?;
    same(rt, search.latest().row(Phase::Parted, 0), 1);
    search.advance(&splits);
    has_rejoined(rt, &search);
    Ok(())
}

fn has_rejoined(rt: &impl Abort, search: &Search) {
    same(rt, search.latest().row(Phase::Parted, 0), 0);
    same(rt, search.latest().row(Phase::Rejoined, 0), 1);
    same(rt, search.seen().row(Phase::Parted, 0), 1);
}

#[test]
fn a_level_has_the_nodes_that_no_shorter_walk_leads_to(rt: HostRuntime) -> Result<(), Fail> {
    let rate = items(rt.alloc())?;
    let items = nfa(&rt, rt.alloc(), &rate)?;
    rejoins_after_one(&rt, rt.alloc(), &items)?;
    Ok(())
}
