//! A part of a text, given by two places.

/// The bytes of a text from the place `from` up to, but not including, the place `to`.
#[derive(Clone, Copy, Debug, PartialEq, Eq)]
pub struct Span {
    pub from: u32,
    pub to: u32,
}
