//! A table of queries that are refused since a word has two readings: how many items the example
//! has that is found for each, and which changed examples are examples as well.

mod case;
mod confirmation;
mod cut_changes;
mod findings;
mod items;
mod readings;
mod stop;

use crate::why::case::Case;
use crate::why::findings::push_found;
use crate::why::stop::Stop;
use std::alloc::Global;
use std::{fs, io};

/// More lines than a table has.
const LINES: u32 = 1_000;

/// Reports each case of the table.
pub(crate) fn report_examples(rt: HostRuntime) -> io::Result<()> {
    let table = fs::read_to_string(&rt, "why")?;
    let mut text = String::new(rt.alloc());
    match push_report(rt.alloc(), table.as_str(), &mut text) {
        Ok(()) => print!(rt; "{text}"),
        Err(stop) => println!(rt; "{stop}"),
    }
}

/// A line for each case of the table.
fn push_report(alloc: Global, table: &str, text: &mut String) -> Result<(), Stop> {
    let mut head = String::new(alloc);
    for (number, line) in (1..LINES).zip(table.lines()) {
        push_line(alloc, number, line, &mut head, text)?;
    }
    Ok(())
}

/// Lines without a bar are the stream and the lets of the cases below them, or remarks.
fn push_line(
    alloc: Global,
    number: u32,
    line: &str,
    head: &mut String,
    text: &mut String,
) -> Result<(), Stop> {
    if line.starts_with("stream(") {
        head.clear();
    }
    match line.split_once(" | ") {
        Some((query, wanted)) => {
            let case = Case::of(alloc, head.as_str(), query, wanted)?;
            push_case(alloc, number, &case, text)
        }
        None if line.starts_with('#') => Ok(()),
        None => Ok(head.push_str(line)?),
    }
}

fn push_case(alloc: Global, number: u32, case: &Case<'_>, text: &mut String) -> Result<(), Stop> {
    write!(text, "{number}: ")?;
    push_found(alloc, case, text)?;
    Ok(text.push('\n')?)
}
