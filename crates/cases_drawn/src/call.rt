//! Calls of the program over memory.
ghost use Rattle.std.specs.Prelude.{◌≡◌, ◌↔◌, IsTrue};
ghost use Rattle.cases_drawn.specs.Outcomes.{IsSame};

use crate::stop::{Finding, Stop};
use io_edge::{MemorySink, MemorySource};
use query_cases::Case;
use sqre_run::sqre;
use std::alloc::{AllocError, Global};
use std::str;
use stream_run::Status;

/// More bytes than a call writes: the answers to some lines, each with the keys of all of them.
const ROOM: usize = 1 << 23;

/// How a call ended, and what it wrote.
#[derive(Drop)]
pub(crate) struct Outcome {
    pub(crate) status: Status,
    pub(crate) text: String,
}

impl Outcome {
    /// Whether both ended in the same way and wrote the same.
    pub(crate) fn is_as(&self, other: &Outcome) -> bool
        ensures { IsTrue result ↔ IsSame self.now other.now }
    {
        self.status == other.status && self.text == other.text
    }

    pub(crate) fn is_done(&self) -> bool
        ensures { IsTrue result ↔ (self.now.status ≡ Status.Done) }
    {
        matches!(self.status, Status::Done)
    }
}

/// The outcome of a command that reads no items.
pub(crate) fn asked(alloc: Global, words: &[&str], case: &Case) -> Result<Outcome, Stop> {
    outcome_of(alloc, words, case, &[])
}

/// The outcome of a run whose first reads give, and whose first writes take, as many bytes as
/// `cuts` says.
pub(crate) fn run(alloc: Global, case: &Case, cuts: &[usize]) -> Result<Outcome, Stop> {
    outcome_of(alloc, &["run", "query", "items"], case, cuts)
}

/// The outcome of a run with the engine that keeps the whole word.
pub(crate) fn run_slowly(alloc: Global, case: &Case) -> Result<Outcome, Stop> {
    outcome_of(alloc, &["slow", "query", "items"], case, &[])
}

fn outcome_of(alloc: Global, words: &[&str], case: &Case, cuts: &[usize]) -> Result<Outcome, Stop> {
    let words = owned(alloc, words)?;
    let mut out = MemorySink::with_cuts(alloc, ROOM, cuts, &[])?;
    let status = call(alloc, &words, case, cuts, &mut out)?;
    outcome_with(alloc, status, out.bytes())
}

fn call(
    alloc: Global,
    words: &[String],
    case: &Case,
    cuts: &[usize],
    out: &mut MemorySink,
) -> Result<Status, AllocError> {
    let mut query = MemorySource::new(alloc, case.query.as_slice(), cuts, &[])?;
    let mut items = MemorySource::new(alloc, case.items.as_slice(), cuts, &[])?;
    Ok(sqre(alloc, words, &mut query, &mut items, out))
}

fn outcome_with(alloc: Global, status: Status, bytes: &[u8]) -> Result<Outcome, Stop> {
    match str::from_utf8(bytes) {
        Ok(text) if text.is_ascii() => Ok(Outcome {
            status,
            text: String::from_str(alloc, text)?,
        }),
        _ => Err(Stop::Found(Finding::Line)),
    }
}

fn owned(alloc: Global, words: &[&str]) -> Result<Vec<String>, Stop> {
    let mut owned = Vec::new(alloc);
    for word in words {
        owned.push(String::from_str(alloc, word)?)?;
    }
    Ok(owned)
}
