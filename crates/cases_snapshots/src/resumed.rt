//! What comes of a snapshot from which a run is to go on.

use io_edge::{MemorySink, SteadySource};
use runner_snapshot::Flaw;
use snapshot_run::{Exit, snapshot};
use std::alloc::{AllocError, Global};
use stream_run::Status;

/// More bytes than is written here.
const ROOM: usize = 1 << 12;

#[derive(Clone, Copy, Debug, PartialEq, Eq)]
pub(crate) enum Outcome {
    /// It has this flaw.
    Bad(Flaw),
    /// All items were answered.
    Ran,
    Other,
}

pub(crate) fn resumed(alloc: Global, bytes: &[u8], items: &[u8]) -> Result<Outcome, AllocError> {
    let mut out = MemorySink::new(alloc, ROOM, &[])?;
    match resume_over(alloc, bytes, items, &mut out)? {
        Exit::BadSnapshot => Ok(bad(out.bytes())),
        Exit::Plain(Status::Done) => Ok(Outcome::Ran),
        Exit::Plain(Status::Memory) => Err(AllocError),
        Exit::Plain(_) => Ok(Outcome::Other),
    }
}

fn bad(line: &[u8]) -> Outcome {
    match line {
        b"bad snapshot long\n" => Outcome::Bad(Flaw::Long),
        b"bad snapshot head\n" => Outcome::Bad(Flaw::Head),
        b"bad snapshot query\n" => Outcome::Bad(Flaw::Query),
        b"bad snapshot form\n" => Outcome::Bad(Flaw::Form),
        b"bad snapshot unfit\n" => Outcome::Bad(Flaw::Unfit),
        _ => Outcome::Other,
    }
}

// Each value is made in a function of its own, since it is dropped at each later step that fails.
fn resume_over(
    alloc: Global,
    bytes: &[u8],
    items: &[u8],
    out: &mut MemorySink,
) -> Result<Exit, AllocError> {
    let mut saved = SteadySource::new(alloc, bytes)?;
    resume_from(alloc, &mut saved, items, out)
}

fn resume_from(
    alloc: Global,
    saved: &mut SteadySource,
    items: &[u8],
    out: &mut MemorySink,
) -> Result<Exit, AllocError> {
    let mut items = SteadySource::new(alloc, items)?;
    let words = words(alloc)?;
    Ok(snapshot(alloc, &words, saved, &mut items, out))
}

fn words(alloc: Global) -> Result<Vec<String>, AllocError> {
    let mut words = Vec::new(alloc);
    for word in ["resume", "snapshot", "items.csv"] {
        words.push(String::from_str(alloc, word)?)?;
    }
    Ok(words)
}
