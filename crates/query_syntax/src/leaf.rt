//! Names, numbers and strings, and where they stand.
use language_base::{Bytes, Span};

/// A word that names something.
#[derive(Drop)]
pub struct Name {
    pub bytes: Bytes,
    pub span: Span,
}

#[derive(Clone, Copy, Debug)]
pub struct Number {
    pub value: i64,
    pub span: Span,
}

/// Which part of a record, from 1 to 8.
#[derive(Clone, Copy, Debug, PartialEq, Eq)]
pub struct Index {
    pub value: u8,
    pub span: Span,
}

/// A string, as the bytes that it stands for.
#[derive(Drop)]
pub struct Text {
    pub bytes: Bytes,
    pub span: Span,
}

/// What a test compares with.
#[derive(Drop)]
pub enum Literal {
    Number(Number),
    Text(Text),
}
