//! Terms with what they say.
ghost use Rattle.std.specs.Prelude.{◌≡◌};

use language_base::{Bytes, Span};

/// A term and its place in the text.
#[derive(Drop)]
#[cycle(term)]
pub enum Term {
    Word(Bytes, Span),
    Number(i64, Span),
    /// The bytes that a string stands for.
    Text(Bytes, Span),
    /// The head word and the arguments.
    Call(Bytes, Terms, Span),
}

/// A list of terms.
#[derive(Drop)]
#[cycle(term)]
pub struct Terms {
    terms: Vec<Term>,
}

impl Terms {
    pub(crate) fn new(terms: Vec<Term>) -> Terms
        ensures { result.terms.items ≡ terms.items }
    {
        Terms { terms }
    }

    pub fn as_slice(&self) -> &[Term]
        ensures { result.now ≡ self.now.terms.items }
    {
        &self.terms
    }
}
