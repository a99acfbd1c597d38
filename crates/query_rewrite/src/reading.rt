//! How an expression reads its left value.
ghost use Rattle.std.specs.Prelude.{◌≡◌};
ghost use Rattle.query_rewrite.specs.Counting.{as_whole, both_read, is_read_once, reading_of};
ghost use Rattle.query_rewrite.specs.Counting.{reading_of_all};
ghost use Rattle.expressions.specs.Expressions.{plain_of, plain_parts};

use expressions::{Expr, Var};

/// How often, and as what.
#[derive(Clone, Copy)]
pub(crate) enum Reading {
    Never,
    /// As an operand.
    Once,
    /// More than once, or by its name, as a table or a record.
    Otherwise,
}

impl Reading {
    pub(crate) fn is_once_at_most(self) -> bool
        ensures { result ≡ is_read_once self }
    {
        match self {
            Reading::Never | Reading::Once => true,
            Reading::Otherwise => false,
        }
    }

    fn and(self, other: Reading) -> Reading
        ensures { result ≡ both_read self other }
    {
        match (self, other) {
            (Reading::Never, other) => other,
            (Reading::Once, Reading::Never) => Reading::Once,
            _ => Reading::Otherwise,
        }
    }
}

#[cycle(reading)]
pub(crate) fn reading_of(value: &Expr) -> Reading
    ensures { result ≡ reading_of (plain_of value.now) }
{
    match value {
        Expr::Literal(_) => Reading::Never,
        Expr::Read(Var::Left) => Reading::Once,
        Expr::Read(_) => Reading::Never,
        Expr::Unary(_, inner) => reading_of(inner),
        Expr::Binary(_, left, right) => reading_of(left).and(reading_of(right)),
        Expr::If(_, left, right, met, other) => {
            let compared = reading_of(left).and(reading_of(right));
            compared.and(reading_of(met).and(reading_of(other)))
        }
        Expr::Sum(name) | Expr::Count(name) | Expr::Part(name, _) => reading_as_whole(*name),
        Expr::Most(name, inner) | Expr::Least(name, inner) | Expr::Get(name, _, inner) => {
            reading_as_whole(*name).and(reading_of(inner))
        }
        Expr::Rec(parts) => reading_of_all(parts.as_slice()),
    }
}

#[cycle(reading)]
fn reading_of_all(parts: &[Expr]) -> Reading
    ensures { result ≡ reading_of_all (plain_parts parts.now) }
{
    match parts {
        [] => Reading::Never,
        [first, rest @ ..] => reading_of(first).and(reading_of_all(rest)),
    }
}

fn reading_as_whole(name: Var) -> Reading
    ensures { result ≡ as_whole name }
{
    match name {
        Var::Left => Reading::Otherwise,
        Var::Right | Var::Field(_) => Reading::Never,
    }
}
