//! The name that a refusal is about.
use language_base::Span;

/// A name of the query, by its place, that breaks the rule `name` or the rule `type`.
#[derive(Clone, Copy)]
pub(crate) enum Culprit {
    /// A column with the name of an earlier one.
    TwiceColumn(Span),
    /// A let with the name of an earlier one.
    TwiceLet(Span),
    /// A name that stands before in the same key.
    TwiceKey(Span),
    /// A name that stands for a query, and no earlier let has it.
    NoLet(Span),
    /// A name that is read from items, and no column has it.
    NoColumn(Span),
    /// A name that is read from values, and no values have it.
    NoValue(Span),
    /// The first of the names that are read from values, one of which is not that of these.
    OtherValue(Span),
    /// The name of values, which are of another kind than is needed.
    OfValue(Span),
    /// A name other than `x`, where one value is known.
    NotOne(Span),
    /// A name other than `x` and `y`, where two values are known.
    NotTwo(Span),
    /// A column of texts, where a number is needed.
    Texts(Span),
    /// A column of numbers, where a text is needed.
    Numbers(Span),
    /// A column of numbers, where a key is needed.
    Key(Span),
    /// The key by which a record is collected, where a number is needed.
    Collected(Span),
    /// A column of items, where a table is needed.
    NoTable(Span),
    /// A column of items, where a record is needed.
    NoRecord(Span),
}
