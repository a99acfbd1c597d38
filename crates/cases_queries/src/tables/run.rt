//! Runs of queries.

use io_edge::{MemorySink, SteadySource};
use query_cases::push_spelled;
use sqre_run::sqre;
use std::alloc::{AllocError, Global};
use stream_run::Status;

/// More bytes than a run of a table writes.
const ROOM: usize = 4_096;

/// The status of a run of the query over the items, and what it writes.
pub(crate) fn written(alloc: Global, query: &[u8], items: &[u8]) -> Result<String, AllocError> {
    let words = words(alloc)?;
    let mut out = MemorySink::new(alloc, ROOM, &[])?;
    let status = run(alloc, &words, query, items, &mut out)?;
    text_of(alloc, status, out.bytes())
}

fn words(alloc: Global) -> Result<Vec<String>, AllocError> {
    let mut words = Vec::new(alloc);
    for word in ["run", "query", "items"] {
        words.push(String::from_str(alloc, word)?)?;
    }
    Ok(words)
}

fn run(
    alloc: Global,
    words: &[String],
    query: &[u8],
    items: &[u8],
    out: &mut MemorySink,
) -> Result<Status, AllocError> {
    let mut query = SteadySource::new(alloc, query)?;
    let mut items = SteadySource::new(alloc, items)?;
    Ok(sqre(alloc, words, &mut query, &mut items, out))
}

fn text_of(alloc: Global, status: Status, bytes: &[u8]) -> Result<String, AllocError> {
    let number = status as u8;
    let mut text = format!(in alloc; "status {number}: ")?;
    push_spelled(&mut text, bytes)?;
    Ok(text)
}
