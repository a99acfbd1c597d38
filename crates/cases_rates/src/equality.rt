//! Rates of a table compared with each other, by `rate_equal` and by all words of up to six items.

use crate::automata::cells_of;
use crate::entry::{Entry, entries_of};
use crate::finding::Finding;
use crate::stop::Stop;
use crate::table::table_of;
use predicate_cells::Cells;
use std::alloc::{AllocError, Global};
use std::rc::Rc;

const HEAD: &str = "same  by words   all_but_empty  by words   its words\n";

/// A line for each rate and each pair on which the answers differ, and on how many pairs and rates
/// they agree.
pub(crate) fn report(alloc: Global, table: &str) -> Result<String, Stop> {
    let table = table_of(alloc, table)?;
    let cells = cells_of(alloc, &table.scope)?;
    let entries = entries_of(alloc, cells.as_ref(), &table)?;
    report_on(alloc, &cells, &entries)
}

fn report_on(alloc: Global, cells: &Rc<Cells>, entries: &[Entry<'_>]) -> Result<String, Stop> {
    let mut text = String::from_str(alloc, HEAD)?;
    let mut agreed = Agreed { pairs: 0, rates: 0 };
    for (at, entry) in entries.iter().enumerate() {
        let finding = Finding::of(alloc, cells, at, entry, entries)?;
        add_finding(&mut text, entry, entries, &finding)?;
        agreed.add(&finding);
    }
    add_totals(&mut text, entries.len(), agreed)?;
    Ok(text)
}

fn add_finding(
    text: &mut String,
    entry: &Entry<'_>,
    others: &[Entry<'_>],
    finding: &Finding,
) -> Result<(), AllocError> {
    add_rate(text, entry, finding)?;
    add_disputes(text, entry, others, finding)
}

/// On how many pairs, and on how many single rates, all answers agree.
#[derive(Clone, Copy)]
struct Agreed {
    pairs: usize,
    rates: usize,
}

impl Agreed {
    fn add(&mut self, finding: &Finding) {
        self.pairs = self.pairs.saturating_add(finding.agreed());
        if finding.has_all == finding.has_all_by_words {
            self.rates = self.rates.saturating_add(1);
        }
    }
}

fn add_rate(text: &mut String, entry: &Entry<'_>, finding: &Finding) -> Result<(), AllocError> {
    let (words, written) = (entry.words, entry.written);
    let (same, by_words) = (finding.same(), finding.same_by_words());
    let (all, all_by_words) = (finding.has_all, finding.has_all_by_words);
    writeln!(
        text,
        "{same:>4}  {by_words:>8}   {all:<13}  {all_by_words:<8}   {words}: {written}"
    )
}

fn add_disputes(
    text: &mut String,
    entry: &Entry<'_>,
    others: &[Entry<'_>],
    finding: &Finding,
) -> Result<(), AllocError> {
    let first = entry.written;
    for (other, opinion) in others.iter().zip(&finding.opinions) {
        if !opinion.is_agreed() {
            let second = other.written;
            let (same, by_words, by_table) = (opinion.by_same, opinion.by_words, opinion.by_table);
            writeln!(
                text,
                "{first} and {second}: same {same}, by words {by_words}, by the table {by_table}"
            )?;
        }
    }
    Ok(())
}

fn add_totals(text: &mut String, rates: usize, agreed: Agreed) -> Result<(), AllocError> {
    let pairs = rates.saturating_mul(rates);
    let (pairs_agreed, rates_agreed) = (agreed.pairs, agreed.rates);
    writeln!(
        text,
        "{rates_agreed} of {rates} rates and {pairs_agreed} of {pairs} pairs agree"
    )
}
