//! Goes through tables of queries, tests and rates, and reports what is found for each: bounds,
//! cells, sets of positions, states, what is decided, and which rates are equal.
#![tactic(auto)]

mod automata;
mod bounds;
mod cell_case;
mod cell_report;
mod decision;
mod entry;
mod equality;
mod finding;
mod items;
mod levels;
mod membership;
mod opinion;
mod pairs;
mod parts;
mod places;
mod predicate;
mod query;
mod question;
mod rate;
mod scope;
mod sets;
mod states;
mod stop;
mod stream;
mod table;
mod words;

use crate::stop::Stop;
use std::alloc::Global;
use std::{fs, io};

/// What is reported of a table.
#[derive(Clone, Copy)]
enum Report {
    Bounds,
    Cells,
    Questions,
    Pairs,
    Equal,
}

fn main(rt: HostRuntime) -> io::Result<()> {
    for (name, report) in [
        ("bounds", Report::Bounds),
        ("cells", Report::Cells),
        ("questions", Report::Questions),
        ("pairs", Report::Pairs),
        ("equal", Report::Equal),
    ] {
        print_report(rt, name, report)?;
    }
    Ok(())
}

fn print_report(rt: HostRuntime, name: &str, report: Report) -> io::Result<()> {
    let table = fs::read_to_string(&rt, name)?;
    match report.on(rt.alloc(), table.as_str()) {
        Ok(text) => print!(rt; "{text}"),
        Err(stop) => println!(rt; "{name}: {stop}"),
    }
}

impl Report {
    fn on(self, alloc: Global, table: &str) -> Result<String, Stop> {
        match self {
            Report::Bounds => bounds::report(alloc, table),
            Report::Cells => cell_report::report(alloc, table),
            Report::Questions => question::report(alloc, table),
            Report::Pairs => pairs::report(alloc, table),
            Report::Equal => equality::report(alloc, table),
        }
    }
}
