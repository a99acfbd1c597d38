//! A left value that waits, with the starts of its pieces.

/// The left piece goes from the outer start to the inner start, and has the value. The right piece
/// begins at the inner start, and has not ended yet:
///
///     outer --(left piece: value)--> inner --(right piece)--> ...
#[derive(Drop)]
pub struct Entry<V> {
    pub inner: u64,
    pub outer: u64,
    pub value: V,
}
