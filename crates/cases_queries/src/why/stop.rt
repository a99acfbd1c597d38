//! Why a table cannot be gone through.

use query_parser::ReadStop;
use std::alloc::AllocError;
use std::fmt;

#[derive(Clone, Copy)]
pub(crate) enum Stop {
    /// A line has no query with a node between brackets.
    Line,
    Memory,
}

impl fmt::Display for Stop {
    fn fmt<W: fmt::Write>(&self, f: &mut fmt::Formatter<W>) -> fmt::Result {
        f.write_str(match self {
            Stop::Line => "a line has no query with a node between brackets",
            Stop::Memory => "out of memory",
        })
    }
}

impl From<AllocError> for Stop {
    fn from(_error: AllocError) -> Stop {
        Stop::Memory
    }
}

impl From<ReadStop> for Stop {
    fn from(stop: ReadStop) -> Stop {
        match stop {
            ReadStop::Refused(_) => Stop::Line,
            ReadStop::Memory => Stop::Memory,
        }
    }
}
