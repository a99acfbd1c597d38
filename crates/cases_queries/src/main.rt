//! Goes through tables of queries and of lines, and through a table of queries that are refused
//! since a word has two readings, and reports what is found in each.
#![tactic(auto)]

mod acceptance;
mod tables;
mod why;

use crate::tables::report_tables;
use crate::why::report_examples;
use std::io;

fn main(rt: HostRuntime) -> io::Result<()> {
    report_tables(rt)?;
    println!(rt; "why")?;
    report_examples(rt)
}
