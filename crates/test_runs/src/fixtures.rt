// What a run is given, and what it gives.
use crate::assertions::same;
use io_edge::{MemorySink, MemorySource};
use sqre_run::sqre;
use std::alloc::{AllocError, Global};
use std::process::Abort;
use stream_run::Status;

pub const SUM: &[u8] = b"stream(plain, col(a, int))\nmain(iter(atom(any, a), 0, add(x, y)))\n";

// More reads than a source takes that gives one byte at a time.
pub const READS: usize = 80;

// What a run is given. Each read takes at most `cut` bytes, each write its own cut, and the calls
// of these numbers fail.
#[derive(Clone, Copy)]
pub struct Given<'a> {
    pub words: &'a str,
    pub query: &'a [u8],
    pub query_fails: &'a [u64],
    pub items: &'a [u8],
    pub item_fails: &'a [u64],
    pub cut: usize,
    pub room: usize,
    pub write_cuts: &'a [usize],
    pub writes_fail: &'a [u64],
}

// The sum over these items, where nothing fails.
pub fn sum_over(items: &[u8]) -> Given<'_> {
    run_of(SUM, items)
}

// The run of a query over these items, where nothing fails.
pub fn run_of<'a>(query: &'a [u8], items: &'a [u8]) -> Given<'a> {
    Given {
        words: "run q -",
        query,
        query_fails: &[],
        items,
        item_fails: &[],
        cut: 4_096,
        room: 4_096,
        write_cuts: &[],
        writes_fail: &[],
    }
}

pub fn words_of(alloc: Global, line: &str) -> Result<Vec<String>, AllocError> {
    let mut words = Vec::new(alloc);
    for word in line.split(' ') {
        words.push(String::from_str(alloc, word)?)?;
    }
    Ok(words)
}

// The status of the run and the bytes that it wrote.
pub fn outcome(alloc: Global, given: Given<'_>) -> Result<(Status, Vec<u8>), AllocError> {
    let words = words_of(alloc, given.words)?;
    let mut out = MemorySink::with_cuts(alloc, given.room, given.write_cuts, given.writes_fail)?;
    let status = run(alloc, &words, given, &mut out)?;
    Ok((status, Vec::from_slice(alloc, out.bytes())?))
}

// The run ends with this status, and these are the bytes that it wrote.
pub fn gives(
    rt: &impl Abort,
    alloc: Global,
    given: Given<'_>,
    wanted: Status,
    written: &[u8],
) -> Result<(), AllocError> {
    let (status, bytes) = outcome(alloc, given)?;
    let found = (given.words, status, bytes.as_slice());
    same(rt, found, (given.words, wanted, written));
    Ok(())
}

fn run(
    alloc: Global,
    words: &[String],
    given: Given<'_>,
    out: &mut MemorySink,
) -> Result<Status, AllocError> {
    let cuts = [given.cut; READS];
    let mut query = MemorySource::new(alloc, given.query, &cuts, given.query_fails)?;
    let mut items = MemorySource::new(alloc, given.items, &cuts, given.item_fails)?;
    Ok(sqre(alloc, words, &mut query, &mut items, out))
}
