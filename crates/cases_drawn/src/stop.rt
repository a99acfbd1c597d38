//! Why a case is not judged to the end.

use query_parser::ReadStop;
use query_resolver::CheckStop;
use std::alloc::{AllocError, AllocFailed};
use std::fmt;

#[derive(Clone, Copy)]
pub(crate) enum Stop {
    Found(Finding),
    Memory,
}

/// What is wrong in a run.
#[derive(Clone, Copy)]
pub(crate) enum Finding {
    /// A call ended neither with an accepted query nor with a refusal.
    Status,
    /// `check`, `bound` and `run` do not judge the query alike.
    Verdicts,
    /// What is written is no line of the command, or not a whole one.
    Line,
    /// There are fewer or more answers than lines.
    Count,
    /// Short reads and writes change what is written.
    Pieces,
    /// A query that a call accepts is refused when it is read by itself.
    Accepted,
    /// The engines answer differently.
    Engines,
    /// A copy of an engine answers differently.
    Copy,
    /// An engine that is reset to the empty word answers differently.
    Reset,
    /// More is kept than the bound allows.
    Bound,
    /// A run writes other answers than the engine gives.
    Answers,
}

impl fmt::Display for Finding {
    fn fmt<W: fmt::Write>(&self, f: &mut fmt::Formatter<W>) -> fmt::Result {
        f.write_str(match self {
            Finding::Status => "a call ended in another way than accepted or refused",
            Finding::Verdicts => "check, bound and run do not say the same",
            Finding::Line => "what is written is no line of the command",
            Finding::Count => "there is not one answer for each line",
            Finding::Pieces => "short reads and writes change what is written",
            Finding::Accepted => "the query is refused where it is read by itself",
            Finding::Engines => "the engines answer in two ways",
            Finding::Copy => "a copy answers in another way",
            Finding::Reset => "an engine that goes back answers in another way",
            Finding::Bound => "more is kept than the bound allows",
            Finding::Answers => "a run writes other answers than the engine gives",
        })
    }
}

impl From<AllocError> for Stop {
    fn from(_error: AllocError) -> Stop {
        Stop::Memory
    }
}

impl<T: Drop> From<AllocFailed<T>> for Stop {
    fn from(_failed: AllocFailed<T>) -> Stop {
        Stop::Memory
    }
}

impl From<ReadStop> for Stop {
    fn from(stop: ReadStop) -> Stop {
        match stop {
            ReadStop::Refused(_) => Stop::Found(Finding::Accepted),
            ReadStop::Memory => Stop::Memory,
        }
    }
}

impl From<CheckStop> for Stop {
    fn from(stop: CheckStop) -> Stop {
        match stop {
            CheckStop::Refused(_) => Stop::Found(Finding::Accepted),
            CheckStop::Memory => Stop::Memory,
        }
    }
}
