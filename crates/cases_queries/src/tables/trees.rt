//! Queries with the runner and with the search side by side, and where the answers differ.

use crate::acceptance::checked;
use crate::tables::keys_met::keys_met;
use crate::tables::pair::{Seen, side_by_side};
use crate::tables::stop::Stop;
use query_model::Checked;
use std::alloc::{AllocError, Global};

/// How much was compared.
#[derive(Clone, Copy, Default)]
struct Totals {
    words: u32,
    answers: u32,
    values: u32,
}

impl Totals {
    fn add(&mut self, seen: Seen) {
        self.words = self.words.saturating_add(1);
        self.answers = self.answers.saturating_add(seen.answers);
        self.values = self.values.saturating_add(seen.values);
    }
}

/// A line for each word on which the engines differ or that cannot be run, and how much was
/// compared. Lines that begin with `#` are remarks, and one that begins with `stream` is the stream
/// of the lines below it.
pub(crate) fn report(alloc: Global, table: &str) -> Result<String, Stop> {
    let mut text = String::new(alloc);
    let mut stream = "";
    let mut totals = Totals::default();
    'lines: for line in table.lines() {
        if line.starts_with("stream") {
            stream = line;
        } else if !line.starts_with('#') {
            let seen = seen_or_none(alloc, stream, line)?;
            push_faults(&mut text, line, seen)?;
            totals.add(seen);
        }
    }
    push_totals(&mut text, totals)?;
    Ok(text)
}

fn push_faults(text: &mut String, line: &str, seen: Seen) -> Result<(), AllocError> {
    let (faults, answers) = (seen.faults, seen.answers);
    if faults > 0 || answers == 0 {
        writeln!(text, "{line}: {faults} faults in {answers} answers")?;
    }
    Ok(())
}

fn push_totals(text: &mut String, totals: Totals) -> Result<(), AllocError> {
    let Totals {
        words,
        answers,
        values,
    } = totals;
    writeln!(text, "{words} words, {answers} answers, {values} values")
}

/// What was found on the word of the line, or nothing if it cannot be run.
fn seen_or_none(alloc: Global, stream: &str, line: &str) -> Result<Seen, Stop> {
    match seen_of(alloc, stream, line) {
        Err(Stop::Line) => Ok(Seen::default()),
        seen => seen,
    }
}

fn seen_of(alloc: Global, stream: &str, line: &str) -> Result<Seen, Stop> {
    let (query, items) = line.split_once(" | ").ok_or(Stop::Line)?;
    let checked = query_over(alloc, stream, query)?;
    side_by_side(alloc, &checked, items, keys_met(alloc, &checked, items)?)
}

fn query_over(alloc: Global, stream: &str, query: &str) -> Result<Box<Checked>, Stop> {
    let text = format!(in alloc; "{stream} main({query})")?;
    Ok(boxed(alloc, checked(alloc, text.as_bytes())?)?)
}

fn boxed(alloc: Global, checked: Checked) -> Result<Box<Checked>, AllocError> {
    Ok(Box::new(alloc, checked)?)
}
