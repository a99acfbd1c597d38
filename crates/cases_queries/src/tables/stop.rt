//! Why a table cannot be run.

use query_resolver::CheckStop;
use std::alloc::AllocError;
use std::fmt;

#[derive(Clone, Copy)]
pub(crate) enum Stop {
    /// The line is no accepted query with a node for each shape, or its items are not numbers.
    Line,
    Memory,
}

impl fmt::Display for Stop {
    fn fmt<W: fmt::Write>(&self, f: &mut fmt::Formatter<W>) -> fmt::Result {
        f.write_str(match self {
            Stop::Line => "a line is not a query with items",
            Stop::Memory => "out of memory",
        })
    }
}

impl From<AllocError> for Stop {
    fn from(_error: AllocError) -> Stop {
        Stop::Memory
    }
}

impl From<CheckStop> for Stop {
    fn from(stop: CheckStop) -> Stop {
        match stop {
            CheckStop::Refused(_) => Stop::Line,
            CheckStop::Memory => Stop::Memory,
        }
    }
}
