//! What the operators of expressions give on scalars.
ghost use Rattle.std.specs.Prelude.{◌≡◌, ℤ, Option, SomeIff, FitsSigned, MatchOption};
ghost use Rattle.std.specs.Int.{w64};
ghost use Rattle.value_ops.specs.Operators.{binary_of, exact, kept, unary_of};
ghost use Rattle.value_ops.specs.Scalar.{in_range};

use crate::{BinaryOp, Scalar, UnaryOp};

impl Scalar {
    /// What an operator gives on it. A scalar that is no number stays what it is.
    pub fn unary(self, op: UnaryOp) -> Scalar
        ensures { result ≡ unary_of op self }
    {
        let Scalar::Number(number) = self else {
            return self;
        };
        match op {
            UnaryOp::Neg => or_overflow(number.checked_neg()),
            UnaryOp::Abs => or_overflow(number.checked_abs()),
        }
    }

    /// What an operator gives on it and another. Where an operand is no number, it is the leftmost
    /// such operand.
    pub fn binary(self, op: BinaryOp, other: Scalar) -> Scalar
        ensures { result ≡ binary_of op self other }
    {
        match (self, other) {
            (Scalar::Number(first), Scalar::Number(second)) => of_numbers(op, first, second),
            (Scalar::Number(_), failed) => failed,
            (failed, _) => failed,
        }
    }
}

fn of_numbers(op: BinaryOp, first: i64, second: i64) -> Scalar
    ensures { result ≡ kept (exact op first second) }
{
    match op {
        BinaryOp::Add => or_overflow(first.checked_add(second)),
        BinaryOp::Sub => or_overflow(first.checked_sub(second)),
        BinaryOp::Mul => or_overflow(first.checked_mul(second)),
        BinaryOp::Div | BinaryOp::Rem if second == 0 => Scalar::DivZero,
        BinaryOp::Div => or_overflow(first.checked_div(second)),
        BinaryOp::Rem => Scalar::Number(first.wrapping_rem(second)),
        BinaryOp::Min => Scalar::Number(first.min(second)),
        BinaryOp::Max => Scalar::Number(first.max(second)),
    }
}

// The number, which is there where it fits.
fn or_overflow(number: Option<i64>) -> Scalar
    ensures { (exact : ℤ) → SomeIff number (FitsSigned w64 exact) exact → result ≡ in_range exact }
{
    number.map_or(Scalar::Overflow, Scalar::Number)
}
