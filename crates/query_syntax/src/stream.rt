//! The stream that a file declares.
use crate::Name;
use language_base::Span;

/// A stream of lines with these columns.
#[derive(Drop)]
pub struct Stream {
    pub mode: Mode,
    pub columns: Vec<Column>,
    pub span: Span,
}

/// How the lines begin.
#[derive(Clone, Copy, Debug, PartialEq, Eq)]
pub enum Mode {
    /// With an item.
    Plain(Span),
    /// With a line that is no item.
    Header(Span),
}

#[derive(Drop)]
pub struct Column {
    pub name: Name,
    pub kind: Kind,
    pub span: Span,
}

/// What the fields of a column are.
#[derive(Clone, Copy, Debug, PartialEq, Eq)]
pub enum Kind {
    Int(Span),
    Text(Span),
    /// Numbers with this many digits after the point.
    Fixed { digits: Digits, span: Span },
}

/// A number from 1 to 9.
#[derive(Clone, Copy, Debug, PartialEq, Eq)]
pub struct Digits {
    pub count: u8,
    pub span: Span,
}
