//! The nodes of a search, by the number of items that leads to them and no fewer.

use crate::automata::automata_of;
use crate::stop::Stop;
use ambiguity_check::{Graph, Marks, Pairs, Phase, Search, Splits};
use predicate_cells::Cells;
use rate_expr::masks::has;
use rate_expr::{MAX_POSITIONS, Rate};
use std::alloc::{AllocError, Global};
use std::rc::Rc;

/// The phases, with a letter for each.
const PHASES: [(Phase, char); 3] = [
    (Phase::Together, 't'),
    (Phase::Parted, 'p'),
    (Phase::Rejoined, 'r'),
];

/// A path of more steps would come to some node twice.
const NODES: u32 = 3 * MAX_POSITIONS * MAX_POSITIONS;

/// The levels of the search for a word in both rates.
pub(crate) fn levels_of_pairs(
    alloc: Global,
    cells: &Rc<Cells>,
    first: &Rate,
    second: &Rate,
) -> Result<String, Stop> {
    let automata = automata_of(alloc, cells, first, second)?;
    let pairs = Pairs::new(alloc, &automata.first, &automata.second)?;
    Ok(levels(alloc, &pairs)?)
}

/// The levels of the search for a word with two splits.
pub(crate) fn levels_of_splits(
    alloc: Global,
    cells: &Rc<Cells>,
    first: &Rate,
    second: &Rate,
) -> Result<String, Stop> {
    let automata = automata_of(alloc, cells, first, second)?;
    let splits = Splits::new(alloc, &automata.first, &automata.second)?;
    Ok(levels(alloc, &splits)?)
}

fn levels<G: Graph>(alloc: Global, graph: &G) -> Result<String, AllocError> {
    let mut search = Search::begin(alloc, graph)?;
    let mut reported = String::new(alloc);
    push_levels(&mut reported, &mut search, graph)?;
    Ok(reported)
}

/// Appends each level, up to the last one with a node.
fn push_levels<G: Graph>(
    reported: &mut String,
    search: &mut Search,
    graph: &G,
) -> Result<(), AllocError> {
    for level in 1..=NODES {
        if search.is_over() {
            return Ok(());
        }
        if level > 1 {
            reported.push_str(" /")?;
        }
        push_nodes(reported, search.latest())?;
        search.advance(graph);
    }
    Ok(())
}

fn push_nodes(reported: &mut String, nodes: &Marks) -> Result<(), AllocError> {
    for (phase, letter) in PHASES {
        for left in 0..MAX_POSITIONS {
            push_row(reported, letter, left, nodes.row(phase, left))?;
        }
    }
    Ok(())
}

/// Appends the nodes of one place on the left.
fn push_row(
    reported: &mut String,
    letter: char,
    left: u32,
    rights: u128,
) -> Result<(), AllocError> {
    for right in 0..MAX_POSITIONS {
        if has(rights, right) {
            let space = if reported.is_empty() { "" } else { " " };
            write!(reported, "{space}{letter}{left}-{right}")?;
        }
    }
    Ok(())
}
