//! What is found for each pair of rates of a table.

use crate::automata::{cells_of, rate_of};
use crate::decision::Decision;
use crate::stop::Stop;
use crate::table::{Table, table_of};
use predicate_cells::Cells;
use rate_expr::Rate;
use std::alloc::Global;
use std::rc::Rc;

/// For each rate, whether words factor in one way, and a letter for it with each rate of the table.
pub(crate) fn report(alloc: Global, table: &str) -> Result<String, Stop> {
    let table = table_of(alloc, table)?;
    report_on(alloc, &table)
}

fn report_on(alloc: Global, table: &Table<'_>) -> Result<String, Stop> {
    let cells = cells_of(alloc, &table.scope)?;
    let rates = rates_of(alloc, table)?;
    let mut text = String::new(alloc);
    add_rates(&mut text, alloc, &cells, &table.cases, &rates)?;
    Ok(text)
}

fn rates_of(alloc: Global, table: &Table<'_>) -> Result<Vec<Box<Rate>>, Stop> {
    let mut rates = Vec::new(alloc);
    for line in &table.cases {
        rates.push(rate_of(alloc, &table.scope, line)?)?;
    }
    Ok(rates)
}

fn add_rates(
    text: &mut String,
    alloc: Global,
    cells: &Rc<Cells>,
    lines: &[&str],
    rates: &[Box<Rate>],
) -> Result<(), Stop> {
    for (line, rate) in lines.iter().zip(rates) {
        add_rate(text, alloc, cells, rate, rates)?;
        writeln!(text, " {line}")?;
    }
    Ok(())
}

fn add_rate(
    text: &mut String,
    alloc: Global,
    cells: &Rc<Cells>,
    first: &Rate,
    rates: &[Box<Rate>],
) -> Result<(), Stop> {
    let factors = Decision::OneFactoring.reported(alloc, cells, first, first)?;
    write!(text, "{factors:<3} ")?;
    for second in rates {
        text.push(letter(alloc, cells, first, second)?)?;
    }
    Ok(())
}

/// Whether they are disjoint, their words split in one way, both, or neither.
fn letter(alloc: Global, cells: &Rc<Cells>, first: &Rate, second: &Rate) -> Result<char, Stop> {
    let disjoint = Decision::Disjoint.on(alloc, cells, first, second)?;
    let one_split = Decision::OneSplit.on(alloc, cells, first, second)?;
    Ok(match (disjoint, one_split) {
        (true, true) => 'b',
        (true, false) => 'd',
        (false, true) => 's',
        (false, false) => '-',
    })
}
