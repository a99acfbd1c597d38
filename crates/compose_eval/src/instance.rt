//! A follower of the right operand, and the start of the left operand that feeds it.

/// The values of the left operand, on the word from the outer start on, are the items of the
/// follower.
#[derive(Drop)]
pub struct Instance<R> {
    pub outer: u64,
    pub follower: R,
}
