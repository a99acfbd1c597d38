//! The rules of the language.
ghost use Rattle.std.specs.Prelude.{◌≡◌};
ghost use Rattle.language_base.specs.Rules.{number_of};

/// A rule that a query can break. Its number is the one that the language reference gives it.
#[derive(Clone, Copy, Debug, PartialEq, Eq)]
pub enum Rule {
    /// The text is too long.
    Long = 1,
    /// Bytes form no token.
    Token,
    /// The tokens do not form a list of terms.
    Term,
    /// A term is nested too deeply.
    Depth,
    /// A term has none of the forms of its place.
    Form,
    /// A name is declared twice, or is not known.
    Name,
    /// A collect stands where none may.
    Nested,
    /// The query is too large.
    Size,
    /// A number is not between -2^63 and 2^63-1.
    Literal,
    /// A test or an expression does not fit the types of its columns and values.
    Mismatch,
    /// The predicates distinguish too many kinds of items.
    Cells,
    /// No item meets a predicate.
    Empty,
    /// A word has both readings of a choice.
    Choice,
    /// A word has two splits.
    Split,
    /// A word has two factorizations.
    Iter,
    /// An automaton reaches too many states.
    Reach,
    /// Two rates are different.
    Rates,
    /// The right operand of a compose that is not at the top has no value on some list of values.
    Compose,
}

impl Rule {
    pub fn number(self) -> u8
        ensures { result ≡ number_of self }
    {
        self as u8
    }
}
