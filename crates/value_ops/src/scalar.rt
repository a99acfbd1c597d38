//! A number, or why there is none.
ghost use Rattle.std.specs.Int.{w64};
ghost use Rattle.std.specs.Prelude.{◌≡◌, ℤ, FitsSigned};
ghost use Rattle.value_ops.specs.Scalar.{in_range};

use crate::BinaryOp;
use std::ops::Add;

/// What an expression gives.
#[derive(Clone, Copy, Debug, PartialEq, Eq)]
pub enum Scalar {
    /// A number of 64 bits with a sign.
    Number(i64),
    /// A result was not from -2^63 to 2^63 - 1.
    Overflow,
    /// A divisor was zero.
    DivZero,
}

impl Scalar {
    ghost use Rattle.value_ops.specs.Types.{IsScalar};

    /// The same scalar, whose number is known to be one of 64 bits.
    pub(crate) fn known(self) -> Scalar
        ensures same { result ≡ self }
        ensures range { IsScalar self }
    {
        match self {
            Scalar::Number(number) => Scalar::Number(number),
            failed => failed,
        }
    }
}

impl Add for Scalar {
    ghost use Rattle.value_ops.specs.Scalar.{add};

    type Output = Scalar;

    ghost add_gives = { λ first second sum. sum ≡ add first second };

    fn add(self, other: Scalar) -> Scalar {
        self.binary(BinaryOp::Add, other)
    }
}

/// A sum that fits is kept, and any other is an overflow.
pub fn sums_fit_or_overflow()
    ensures fits { (sum : ℤ) → FitsSigned w64 sum → in_range sum ≡ Scalar.Number sum }
    ensures beyond { (sum : ℤ) → ¬ (FitsSigned w64 sum) → in_range sum ≡ Scalar.Overflow }
{}
