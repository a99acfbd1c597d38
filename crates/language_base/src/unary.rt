//! The operators on one number.

/// An operator on one number.
#[derive(Clone, Copy, Debug, PartialEq, Eq)]
pub enum UnaryOp {
    /// The number with the other sign.
    Neg,
    /// The absolute value.
    Abs,
}
