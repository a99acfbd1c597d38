//! What is known of operators and comparisons of literals.
ghost use Rattle.std.specs.Prelude.{◌≡◌};
ghost use Rattle.query_rewrite.specs.Literals.{binary_on, compared_on, literal_in, number_in};
ghost use Rattle.query_rewrite.specs.Literals.{unary_on};
ghost use Rattle.expressions.specs.Expressions.{plain_of};

use expressions::Expr;
use language_base::Compare;
use value_ops::{BinaryOp, Scalar, UnaryOp};

/// What the operator gives on the operand, if that is a literal and it is a number.
pub(crate) fn known_unary(op: UnaryOp, inner: &Expr) -> Option<i64>
    ensures { result ≡ unary_on op (literal_in (plain_of inner.now)) }
{
    number_in(Scalar::Number(literal_in(inner)?).unary(op))
}

/// What the operator gives on the operands, if they are literals and it is a number.
pub(crate) fn known_binary(op: BinaryOp, left: &Expr, right: &Expr) -> Option<i64>
    ensures { result ≡ binary_on op
        (literal_in (plain_of left.now)) (literal_in (plain_of right.now)) }
{
    let left = Scalar::Number(literal_in(left)?);
    number_in(left.binary(op, Scalar::Number(literal_in(right)?)))
}

/// Whether the comparison holds of the operands, if they are literals.
pub(crate) fn known_comparison(test: Compare, left: &Expr, right: &Expr) -> Option<bool>
    ensures { result ≡ compared_on test
        (literal_in (plain_of left.now)) (literal_in (plain_of right.now)) }
{
    let left = literal_in(left)?;
    Some(test.holds(left, literal_in(right)?))
}

fn literal_in(value: &Expr) -> Option<i64>
    ensures { result ≡ literal_in (plain_of value.now) }
{
    match value {
        Expr::Literal(number) => Some(*number),
        _ => None,
    }
}

fn number_in(scalar: Scalar) -> Option<i64>
    ensures { result ≡ number_in scalar }
{
    match scalar {
        Scalar::Number(number) => Some(number),
        Scalar::Overflow | Scalar::DivZero => None,
    }
}
