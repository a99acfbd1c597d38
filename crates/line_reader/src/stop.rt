//! Why a line gives no item.
ghost use Rattle.std.specs.Prelude.{◌≡◌};
ghost use Rattle.line_reader.specs.Reading.{skip};

use std::alloc::AllocError;

/// What is wrong with a line.
#[derive(Clone, Copy, Debug, PartialEq, Eq)]
pub enum Cause {
    /// It has more than 65,536 bytes.
    Long,
    /// A CR is left in it.
    Cr,
    /// It has not a field for each column.
    Columns,
    /// A field has not the form of a number of its column.
    Number,
    /// A number does not fit 64 bits.
    Range,
    /// A number has more digits after the point than its column.
    Digits,
}

/// A line that is left out, for a cause that is found in a column.
#[derive(Clone, Copy, Debug, PartialEq, Eq)]
pub struct Skip {
    pub cause: Cause,
    /// Counted from 1, and 0 where the cause is one of the whole line.
    pub column: u32,
}

/// Why no item was read.
#[derive(Clone, Copy, Debug, PartialEq, Eq)]
pub enum ItemStop {
    Skip(Skip),
    Memory,
}

impl ItemStop {
    pub(crate) fn skip(cause: Cause, column: u32) -> ItemStop
        ensures { result ≡ ItemStop.Skip (skip cause column) }
    {
        ItemStop::Skip(Skip { cause, column })
    }
}

impl From<AllocError> for ItemStop {
    ghost use Rattle.line_reader.specs.declared.stop.ItemStop.TheVariants.{Memory};

    ghost from_gives = { λ _ stop. stop ≡ Memory };

    fn from(_error: AllocError) -> ItemStop {
        ItemStop::Memory
    }
}
