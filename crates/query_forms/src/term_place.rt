//! The places of a file.

/// What a term is, by its place in the file.
#[derive(Clone, Copy, Debug, PartialEq, Eq)]
pub enum TermPlace {
    /// How the stream's lines begin.
    Mode,
    /// A column of the stream.
    Column,
    /// The kind of a column.
    Kind,
    /// A query.
    Query,
    /// The columns of a collect's key.
    Key,
    /// The rate of a collect.
    Rate,
    /// A predicate on items.
    Pred,
    /// A number or a string.
    Literal,
    /// An expression.
    Expr,
    /// A comparison of two expressions.
    Compare,
    /// A word.
    Name,
    /// A number.
    Number,
    /// A string.
    Text,
    /// A number from 1 to 9.
    Digits,
    /// A number from 1 to 8.
    Index,
}
