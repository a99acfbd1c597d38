//! A whole query file.
use crate::{Name, Query, Stream};
use language_base::Span;

/// A stream, the lets in the order of the text, and the main query.
#[derive(Drop)]
pub struct Program {
    pub stream: Stream,
    pub lets: Vec<Let>,
    pub main: Main,
}

/// A query with a name.
#[derive(Drop)]
pub struct Let {
    pub name: Name,
    pub query: Box<Query>,
    pub span: Span,
}

#[derive(Drop)]
pub struct Main {
    pub query: Box<Query>,
    pub span: Span,
}
