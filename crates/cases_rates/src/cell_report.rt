//! The cells that tests make.

use crate::cell_case::Case;
use crate::stop::Stop;
use std::alloc::Global;

/// Each case of the table with what is found. A line that begins with `stream`, or `values`, is the
/// stream of the lines below it, and one that begins with `#` is a remark.
pub(crate) fn report(alloc: Global, table: &str) -> Result<String, Stop> {
    let mut text = String::new(alloc);
    let mut stream = "";
    'lines: for line in table.lines() {
        if line.starts_with("stream(") || line == "values" {
            stream = line;
        } else if !line.starts_with('#') {
            add_case(alloc, &mut text, stream, line)?;
        }
    }
    Ok(text)
}

fn add_case(alloc: Global, text: &mut String, stream: &str, line: &str) -> Result<(), Stop> {
    let case = Case::of(alloc, stream, line)?;
    add_answer(alloc, text, line, &case)
}

fn add_answer(alloc: Global, text: &mut String, line: &str, case: &Case<'_>) -> Result<(), Stop> {
    match case.answer(alloc) {
        Ok(reported) => Ok(writeln!(text, "{line}: {reported}")?),
        Err(Stop::Size) => Ok(writeln!(text, "{line}: too many cells")?),
        Err(stop) => Err(stop),
    }
}
