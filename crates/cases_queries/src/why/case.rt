//! The cases of a table.

use crate::why::readings::Readings;
use crate::why::stop::Stop;
use language_base::Span;
use std::alloc::{AllocError, Global};

/// A query, and what the table says of it.
#[derive(Drop)]
pub(crate) struct Case<'t> {
    pub(crate) query: String,
    /// Where the refused node stands.
    pub(crate) span: Span,
    /// The rule that it breaks, and how many items a shortest example has.
    pub(crate) wanted: &'t str,
    pub(crate) readings: Readings,
}

impl<'t> Case<'t> {
    /// The case of a query after this head. Brackets in it mark the refused node.
    pub(crate) fn of(
        alloc: Global,
        head: &str,
        query: &str,
        wanted: &'t str,
    ) -> Result<Case<'t>, Stop> {
        let marked = Marked::of(head, query).ok_or(Stop::Line)?;
        let span = marked.span().ok_or(Stop::Line)?;
        let (wanted, readings) = Readings::of(wanted);
        Ok(Case {
            query: marked.query(alloc)?,
            span,
            wanted,
            readings,
        })
    }
}

/// A query with a mark around a node, in the parts between the marks.
#[derive(Clone, Copy)]
struct Marked<'t> {
    head: &'t str,
    front: &'t str,
    node: &'t str,
    back: &'t str,
}

impl<'t> Marked<'t> {
    fn of(head: &'t str, query: &'t str) -> Option<Marked<'t>> {
        let (front, rest) = query.split_once('[')?;
        let (node, back) = rest.split_once(']')?;
        Some(Marked {
            head,
            front,
            node,
            back,
        })
    }

    fn query(self, alloc: Global) -> Result<String, AllocError> {
        format!(in alloc; "{}{}{}{}", self.head, self.front, self.node, self.back)
    }

    /// Where the node stands in the query.
    fn span(self) -> Option<Span> {
        let from = self.head.len().checked_add(self.front.len())?;
        let to = from.checked_add(self.node.len())?;
        Some(Span {
            from: u32::try_from(from).ok()?,
            to: u32::try_from(to).ok()?,
        })
    }
}
