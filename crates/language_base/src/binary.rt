//! The operators on two numbers.

/// An operator on two numbers.
#[derive(Clone, Copy, Debug, PartialEq, Eq)]
pub enum BinaryOp {
    Add,
    Sub,
    Mul,
    /// The quotient, cut towards zero.
    Div,
    /// The remainder, with the sign of the dividend.
    Rem,
    /// The lesser.
    Min,
    /// The greater.
    Max,
}
