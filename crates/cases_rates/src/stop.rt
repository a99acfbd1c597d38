//! Why a table cannot be gone through.

use line_reader::ItemStop;
use predicate_cells::CellStop;
use query_parser::ReadStop;
use rate_equal::EqualStop;
use std::alloc::{AllocError, AllocFailed};
use std::fmt;

#[derive(Clone, Copy)]
pub(crate) enum Stop {
    /// A line does not belong in its table.
    Line,
    /// A name is neither that of a column nor that of an earlier query.
    Name,
    /// A test does not fit the items of its stream, or the cells do not decide it.
    Test,
    /// There are too many positions or cells.
    Size,
    /// Words lead to too many states, or pairs of states.
    Reach,
    Memory,
}

impl fmt::Display for Stop {
    fn fmt<W: fmt::Write>(&self, f: &mut fmt::Formatter<W>) -> fmt::Result {
        f.write_str(match self {
            Stop::Line => "a line is none of its table",
            Stop::Name => "a name is none of a column, or of a query before it",
            Stop::Test => "a test is none of the items of its stream",
            Stop::Size => "there are too many positions or cells",
            Stop::Reach => "too many states",
            Stop::Memory => "out of memory",
        })
    }
}

impl From<AllocError> for Stop {
    fn from(_error: AllocError) -> Stop {
        Stop::Memory
    }
}

impl<T: Drop> From<AllocFailed<T>> for Stop {
    fn from(_failed: AllocFailed<T>) -> Stop {
        Stop::Memory
    }
}

impl From<ReadStop> for Stop {
    fn from(stop: ReadStop) -> Stop {
        match stop {
            ReadStop::Refused(_) => Stop::Line,
            ReadStop::Memory => Stop::Memory,
        }
    }
}

impl From<ItemStop> for Stop {
    fn from(stop: ItemStop) -> Stop {
        match stop {
            ItemStop::Skip(_) => Stop::Line,
            ItemStop::Memory => Stop::Memory,
        }
    }
}

impl From<CellStop> for Stop {
    fn from(stop: CellStop) -> Stop {
        match stop {
            CellStop::TooMany => Stop::Size,
            CellStop::Memory => Stop::Memory,
        }
    }
}

impl From<EqualStop> for Stop {
    fn from(stop: EqualStop) -> Stop {
        match stop {
            EqualStop::Reach => Stop::Reach,
            EqualStop::Memory => Stop::Memory,
        }
    }
}
