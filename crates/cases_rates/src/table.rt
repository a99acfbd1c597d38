//! Tables of cases.

use crate::scope::Scope;
use crate::stop::Stop;
use std::alloc::{AllocError, Global};

/// The cases of a table, a line each, and the stream and the lets that their queries are over.
#[derive(Drop)]
pub(crate) struct Table<'t> {
    pub(crate) scope: Scope,
    pub(crate) cases: Vec<&'t str>,
}

/// Lines that begin with `stream` or `let` are parts of a query file, and those that begin with `#`
/// are remarks.
pub(crate) fn table_of<'t>(alloc: Global, text: &'t str) -> Result<Box<Table<'t>>, Stop> {
    let scope = scope_of(alloc, text)?;
    let cases = cases_of(alloc, text)?;
    Ok(Box::new(alloc, Table { scope, cases })?)
}

fn scope_of(alloc: Global, text: &str) -> Result<Scope, Stop> {
    let mut head = String::new(alloc);
    for line in text.lines() {
        if is_of_file(line) {
            head.push_str(line)?;
        }
    }
    Scope::of(alloc, head.as_str())
}

fn cases_of<'t>(alloc: Global, text: &'t str) -> Result<Vec<&'t str>, AllocError> {
    let mut cases = Vec::new(alloc);
    for line in text.lines() {
        if !is_of_file(line) && !line.starts_with('#') {
            cases.push(line)?;
        }
    }
    Ok(cases)
}

/// Whether the line is a part of a query file.
fn is_of_file(line: &str) -> bool {
    line.starts_with("stream(") || line.starts_with("let(")
}
