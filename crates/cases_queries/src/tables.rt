//! Tables of queries: what each is read to, how it is judged, what a run of it writes, and where
//! the runner and the search differ on it. Also a table of lines, each read by `csv`'s reader and
//! to an item.

mod constructors;
mod csv_lines;
mod keys_met;
mod pair;
mod refusal;
mod run;
mod stop;
mod transcripts;
mod trees;
mod verdict;

use crate::tables::constructors::constructors;
use crate::tables::csv_lines::read_lines;
use crate::tables::run::written;
use crate::tables::verdict::verdict;
use query_cases::{Case, spelled_cases};
use std::alloc::{AllocError, Global};
use std::{fs, io};

/// What is reported of the cases of a table.
#[derive(Clone, Copy)]
enum Question {
    /// The constructors that queries are read to.
    Constructors,
    /// Whether the queries are accepted.
    Verdict,
    /// What runs of the queries write.
    Run,
}

/// Reports each case of each table.
pub(crate) fn report_tables(rt: HostRuntime) -> io::Result<()> {
    for (name, question) in [
        ("constructors", Question::Constructors),
        ("files", Question::Constructors),
        ("lets", Question::Verdict),
        ("names", Question::Verdict),
        ("types", Question::Verdict),
        ("words", Question::Verdict),
        ("streams", Question::Verdict),
        ("order", Question::Verdict),
        ("texts", Question::Verdict),
        ("limits", Question::Verdict),
        ("runs", Question::Run),
    ] {
        print_report(rt, name, question)?;
    }
    report_trees(rt)?;
    read_lines(rt, "lines.csv")
}

fn print_report(rt: HostRuntime, name: &str, question: Question) -> io::Result<()> {
    let table = fs::read_to_string(&rt, name)?;
    let text = report(rt.alloc(), question, table.as_str())?;
    println!(rt; "{name}")?;
    print!(rt; "{text}")
}

fn report_trees(rt: HostRuntime) -> io::Result<()> {
    let table = fs::read_to_string(&rt, "trees")?;
    match trees::report(rt.alloc(), table.as_str()) {
        Ok(text) => print!(rt; "{text}"),
        Err(stop) => println!(rt; "{stop}"),
    }
}

/// A line for each case.
fn report(alloc: Global, question: Question, table: &str) -> Result<String, AllocError> {
    let mut text = String::new(alloc);
    for numbered in &spelled_cases(alloc, table)? {
        let found = found(alloc, question, &numbered.case)?;
        writeln!(text, "{}: {}", numbered.number, found)?;
    }
    Ok(text)
}

fn found(alloc: Global, question: Question, case: &Case) -> Result<String, AllocError> {
    match question {
        Question::Constructors => constructors(alloc, case.query.as_slice()),
        Question::Verdict => verdict(alloc, case.query.as_slice()),
        Question::Run => written(alloc, case.query.as_slice(), case.items.as_slice()),
    }
}
