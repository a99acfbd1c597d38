//! Answers on two rates.

use crate::decision::Decision;
use crate::entry::Entry;
use crate::stop::Stop;
use predicate_cells::Cells;
use std::alloc::Global;
use std::rc::Rc;

/// Whether two rates have the same words, by each of three ways to decide it.
#[derive(Clone, Copy)]
pub(crate) struct Opinion {
    pub(crate) by_same: bool,
    pub(crate) by_words: bool,
    pub(crate) by_table: bool,
}

impl Opinion {
    pub(crate) fn is_agreed(self) -> bool {
        self.by_same == self.by_words && self.by_words == self.by_table
    }
}

/// The answers on the rate and each of the others, itself included.
pub(crate) fn opinions_of(
    alloc: Global,
    cells: &Rc<Cells>,
    first: &Entry<'_>,
    others: &[Entry<'_>],
) -> Result<Vec<Opinion>, Stop> {
    let mut opinions = Vec::new(alloc);
    for second in others {
        opinions.push(Opinion {
            by_same: Decision::Same.on(alloc, cells, &first.rate, &second.rate)?,
            by_words: first.members == second.members,
            by_table: first.words == second.words,
        })?;
    }
    Ok(opinions)
}
