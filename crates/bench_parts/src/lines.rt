//! Counts lines: what it costs only to read and split them.

use io_edge::{LazyFile, Line, LineStop, Lines, Source};
use std::alloc::{AllocError, Global};
use std::io;

/// The word is the file, or `-` for standard input.
pub(crate) fn count_lines(rt: HostRuntime, words: &[String]) -> io::Result<()> {
    let file = words.get(0).map_or("-", |word| word.as_str());
    let reported = report_of(rt, file)?;
    println!(rt; "{reported}")
}

/// How many lines the file has, or why they cannot be counted.
fn report_of(rt: HostRuntime, file: &str) -> Result<String, AllocError> {
    let alloc = rt.alloc();
    let mut source = LazyFile::new(rt, alloc, file)?;
    reported_of_source(alloc, &mut source)
}

fn reported_of_source<S: Source>(alloc: Global, source: &mut S) -> Result<String, AllocError> {
    let mut lines = Lines::new(alloc)?;
    match line_count(&mut lines, source) {
        Ok(count) => format!(in alloc; "{count}"),
        Err(stop) => format!(in alloc; "{stop:?}"),
    }
}

fn line_count<S: Source>(lines: &mut Lines, source: &mut S) -> Result<u64, LineStop> {
    for count in 0..u64::MAX {
        if let Line::End = lines.next(source)? {
            return Ok(count);
        }
    }
    Ok(u64::MAX)
}
