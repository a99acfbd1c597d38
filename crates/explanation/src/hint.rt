//! What is often meant where a query is refused.

/// What stands at the place of a refusal, if it shows more than the rule what was meant.
#[derive(Clone, Copy, Debug, PartialEq, Eq)]
pub(crate) enum Hint {
    /// The point of a number.
    Point,
    /// A quote of another language.
    SingleQuote,
    /// A quote that opens or closes in print.
    SmartQuote,
    /// A string that is not well formed.
    BadString,
    /// What begins a comment in another language.
    Comment,
    /// A comparison between its operands.
    Comparison,
    /// An operator between its operands.
    Arithmetic,
    /// `&` or `|`.
    Connective,
    /// A bracket or a sign that the language does not have.
    Mark,
    /// A byte order mark.
    ByteOrderMark,
    /// A byte that is not ASCII.
    NotAscii,
    /// A term after a term.
    MissingComma,
    /// A comma or a closing bracket where a term is missing, or where no bracket is open.
    MissingTerm,
    /// An opening bracket that comes after no word.
    NoHead,
    /// `eps`, where a query is needed.
    EmptyWord,
    /// Values of two types, where both are to be of one.
    TwoTypes,
    /// A value of another type than a form takes.
    OtherType,
    /// An iteration that does not give a number.
    Iterated,
    /// The cells of values.
    ValueCells,
    /// The items of a written rate.
    RateItem,
}
