//! Whether a composition may have no value.

/// Whether a composition at this place of the query may have no value on a word of its rate.
#[derive(Clone, Copy)]
pub enum Standing {
    /// It may, since only compositions stand above it.
    Free,
    Bound,
}
