//! The written rates of collects.
use crate::{Join, Predicate};
use language_base::Span;

/// A regular expression over items.
#[derive(Drop)]
pub enum Rate {
    /// The empty word.
    Eps(Span),
    /// One item that meets a predicate.
    Item {
        predicate: Predicate,
        span: Span,
    },
    Joined {
        join: Join,
        left: Box<Rate>,
        right: Box<Rate>,
        span: Span,
    },
    Star {
        operand: Box<Rate>,
        span: Span,
    },
}
