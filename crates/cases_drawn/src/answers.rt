//! The lines that a call writes for a query that is accepted.
ghost use Rattle.std.specs.Prelude.{◌≡◌, ◌-◌, length, slice_index_or, OnOk};

use crate::stop::{Finding, Stop};
use std::alloc::Global;

/// The causes for which a line is no item.
const CAUSES: [&str; 6] = ["long", "cr", "columns", "number", "digits", "range"];
/// The greatest number that a column may have.
const COLUMNS: u32 = 32;

/// What a run wrote.
#[derive(Drop)]
pub(crate) struct Answers {
    /// The lines for items, in their order.
    pub(crate) answered: String,
    /// How many answers to items there are.
    pub(crate) items: u32,
    /// How many lines there are in all.
    pub(crate) lines: u32,
}

impl Answers {
    /// The answers of a text, each of them a line of a run.
    pub(crate) fn of(alloc: Global, text: &str) -> Result<Answers, Stop>
        // The last byte, if there is one, is an LF.
        ensures { OnOk result (slice_index_or text.now (length text.now - 1) 10 ≡ 10) }
    {
        let mut answers = Answers {
            answered: String::new(alloc),
            items: 0,
            lines: 0,
        };
        for line in text.lines() {
            answers.add(line)?;
        }
        match text.as_bytes().last() {
            None | Some(b'\n') => Ok(answers),
            Some(_) => Err(Stop::Found(Finding::Line)),
        }
    }

    fn add(&mut self, line: &str) -> Result<(), Stop> {
        self.lines = self.lines.saturating_add(1);
        if is_answer(line) {
            self.items = self.items.saturating_add(1);
            self.answered.push_str(line)?;
            self.answered.push('\n')?;
        } else if !is_skip(line) {
            return Err(Stop::Found(Finding::Line));
        }
        Ok(())
    }
}

fn is_answer(line: &str) -> bool {
    match line {
        "undefined" | "overflow" | "divzero" => true,
        _ => is_number(line) || (line.starts_with('{') && line.ends_with('}')),
    }
}

fn is_number(line: &str) -> bool {
    !line.starts_with('+') && line.parse::<i64>().is_ok()
}

fn is_skip(line: &str) -> bool {
    let Some(rest) = line.strip_prefix("skipped ") else {
        return false;
    };
    match rest.split_once(' ') {
        Some((cause, column)) => {
            CAUSES.contains(&cause) && column.parse::<u32>().is_ok_and(|place| place <= COLUMNS)
        }
        None => false,
    }
}

/// Whether the text is the line of a bound.
pub(crate) fn is_bound(text: &str) -> bool {
    let Some(rest) = text.strip_prefix("places ") else {
        return false;
    };
    match rest.split_once(" slots ") {
        Some((places, slots)) => is_count(places) && slots.strip_suffix('\n').is_some_and(is_count),
        None => false,
    }
}

/// Whether the text is the line that a drill of 20 items writes.
pub(crate) fn is_drill(text: &str) -> bool {
    let Some(rest) = text.strip_prefix("items 20 defined ") else {
        return false;
    };
    match rest.split_once(" last ") {
        Some((defined, last)) => defined.parse::<u32>().is_ok_and(|count| count <= 20)
            && last.strip_suffix('\n').is_some_and(is_answer),
        None => false,
    }
}

fn is_count(text: &str) -> bool {
    text.parse::<u32>().is_ok()
}
