//! The refusal of a query.

use crate::{Rule, Span};

/// The first rule that a query breaks, and the place where it does.
#[derive(Clone, Copy, Debug, PartialEq, Eq)]
pub struct Refusal {
    pub rule: Rule,
    pub span: Span,
}
