//! The rates of the table with their short words.

use crate::automata::rate_of;
use crate::membership::contains;
use crate::scope::Scope;
use crate::stop::Stop;
use crate::table::Table;
use crate::words::short_words;
use item_schema::Item;
use predicate_cells::Cells;
use rate_expr::Rate;
use std::alloc::{AllocError, Global};

/// A rate as it is written, what the table says of its words, and for each short word whether it is
/// in the rate.
#[derive(Drop)]
pub(crate) struct Entry<'t> {
    pub(crate) words: &'t str,
    pub(crate) written: &'t str,
    pub(crate) rate: Box<Rate>,
    pub(crate) members: Vec<bool>,
}

impl Entry<'_> {
    /// Whether every short word of at least one item is in the rate.
    pub(crate) fn has_all_but_empty(&self) -> bool {
        // The empty word is the first.
        self.members.iter().skip(1).all(|member| *member)
    }
}

pub(crate) fn entries_of<'t>(
    alloc: Global,
    cells: &Cells,
    table: &Table<'t>,
) -> Result<Vec<Entry<'t>>, Stop> {
    let short = short_words(alloc, cells)?;
    let mut entries = Vec::new(alloc);
    for &line in &table.cases {
        entries.push(entry_of(alloc, &table.scope, line, &short)?)?;
    }
    Ok(entries)
}

fn entry_of<'t>(
    alloc: Global,
    scope: &Scope,
    line: &'t str,
    short: &[Vec<Item<'static>>],
) -> Result<Entry<'t>, Stop> {
    let Some((words, written)) = line.split_once(": ") else {
        return Err(Stop::Line);
    };
    let rate = rate_of(alloc, scope, written)?;
    let members = members_of(alloc, &rate, short)?;
    Ok(Entry {
        words,
        written,
        rate,
        members,
    })
}

fn members_of(
    alloc: Global,
    rate: &Rate,
    short: &[Vec<Item<'static>>],
) -> Result<Vec<bool>, AllocError> {
    let mut members = Vec::new(alloc);
    for word in short {
        members.push(contains(rate, word))?;
    }
    Ok(members)
}
