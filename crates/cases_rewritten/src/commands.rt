//! Commands of the program, over memory.

use io_edge::{MemorySink, SteadySource};
use sqre_run::sqre;
use std::alloc::{AllocError, Global};
use std::str;
use stream_run::Status;

/// More bytes than a command writes here.
const ROOM: usize = 1 << 16;

/// What the command writes of the query and the items. All that it writes is ASCII.
pub(crate) fn written(
    alloc: Global,
    words: &[&str],
    query: &[u8],
    items: &[u8],
) -> Result<String, AllocError> {
    let words = owned(alloc, words)?;
    let mut out = MemorySink::new(alloc, ROOM, &[])?;
    carry_out(alloc, &words, query, items, &mut out)?;
    String::from_str(alloc, str::from_utf8(out.bytes()).unwrap_or(""))
}

fn owned(alloc: Global, words: &[&str]) -> Result<Vec<String>, AllocError> {
    let mut owned = Vec::new(alloc);
    for word in words {
        owned.push(String::from_str(alloc, word)?)?;
    }
    Ok(owned)
}

fn carry_out(
    alloc: Global,
    words: &[String],
    query: &[u8],
    items: &[u8],
    out: &mut MemorySink,
) -> Result<Status, AllocError> {
    let mut query = SteadySource::new(alloc, query)?;
    let mut items = SteadySource::new(alloc, items)?;
    Ok(sqre(alloc, words, &mut query, &mut items, out))
}
