//! What is found for a rate of the table.

use crate::decision::Decision;
use crate::entry::Entry;
use crate::opinion::{Opinion, opinions_of};
use crate::stop::Stop;
use predicate_cells::Cells;
use std::alloc::Global;
use std::rc::Rc;

#[derive(Drop)]
pub(crate) struct Finding {
    /// Where the rate stands in the table.
    at: usize,
    /// The answers on it and each rate of the table.
    pub(crate) opinions: Vec<Opinion>,
    /// Whether every word of at least one item is in it, by `all_but_empty` and by short words.
    pub(crate) has_all: bool,
    pub(crate) has_all_by_words: bool,
}

impl Finding {
    pub(crate) fn of(
        alloc: Global,
        cells: &Rc<Cells>,
        at: usize,
        entry: &Entry<'_>,
        entries: &[Entry<'_>],
    ) -> Result<Finding, Stop> {
        Ok(Finding {
            at,
            opinions: opinions_of(alloc, cells, entry, entries)?,
            has_all: Decision::AllButEmpty.on(alloc, cells, &entry.rate, &entry.rate)?,
            has_all_by_words: entry.has_all_but_empty(),
        })
    }

    /// How many other rates are equal, by `same`.
    pub(crate) fn same(&self) -> usize {
        self.opinions
            .iter()
            .enumerate()
            .filter(|(other, opinion)| *other != self.at && opinion.by_same)
            .count()
    }

    /// How many have the same short words.
    pub(crate) fn same_by_words(&self) -> usize {
        self.opinions
            .iter()
            .enumerate()
            .filter(|(other, opinion)| *other != self.at && opinion.by_words)
            .count()
    }

    pub(crate) fn agreed(&self) -> usize {
        self.opinions
            .iter()
            .filter(|opinion| opinion.is_agreed())
            .count()
    }
}
