//! How many levels expressions have as terms.
ghost use Rattle.std.specs.Prelude.{◌≡◌, ◌+◌, ◌-◌, ◌^◌, max, min};
ghost use Rattle.query_rewrite.specs.Counting.{levels_with, most_with};
ghost use Rattle.expressions.specs.Expressions.{plain_of, plain_parts};

use expressions::{Expr, Var};

/// The levels of the expression where the left value has `left` levels, at most 2^32 - 1.
#[cycle(levels)]
pub(crate) fn levels_of(value: &Expr, left: u32) -> u32
    ensures { result ≡ min (levels_with left (plain_of value.now)) (2 ^ 32 - 1) }
{
    match value {
        Expr::Literal(_) => 1,
        Expr::Read(Var::Left) => left,
        Expr::Read(_) => 1,
        Expr::Unary(_, inner) => levels_of(inner, left).saturating_add(1),
        Expr::Binary(_, first, second) => levels_over(first, second, left),
        Expr::If(_, first, second, met, other) => {
            let compared = levels_over(first, second, left);
            let chosen = levels_of(met, left).max(levels_of(other, left));
            compared.max(chosen).saturating_add(1)
        }
        Expr::Sum(_) | Expr::Count(_) | Expr::Part(..) => 2,
        Expr::Most(_, inner) | Expr::Least(_, inner) | Expr::Get(_, _, inner) => {
            levels_of(inner, left).saturating_add(1)
        }
        Expr::Rec(parts) => most_levels(parts.as_slice(), left).saturating_add(1),
    }
}

#[cycle(levels)]
fn levels_over(first: &Expr, second: &Expr, left: u32) -> u32
    ensures { result ≡ min
        (max (levels_with left (plain_of first.now)) (levels_with left (plain_of second.now)) + 1)
        (2 ^ 32 - 1) }
{
    let most = levels_of(first, left).max(levels_of(second, left));
    most.saturating_add(1)
}

#[cycle(levels)]
fn most_levels(parts: &[Expr], left: u32) -> u32
    ensures { result ≡ min (most_with left (plain_parts parts.now)) (2 ^ 32 - 1) }
{
    match parts {
        [] => 0,
        [first, rest @ ..] => levels_of(first, left).max(most_levels(rest, left)),
    }
}
