//! The rates of queries, from those of their operands.
ghost use Rattle.std.specs.Prelude.{◌≡◌, IfOk};
ghost use Rattle.query_model.specs.Queries.{plain_of};
ghost use Rattle.query_model.specs.Rates.{rate_of};
ghost use Rattle.rate_expr.specs.Plain as rates;
ghost use Rattle.rate_expr.specs.Rates as rate;

use crate::query::Query;
use rate_expr::Rate;
use std::alloc::{AllocError, Global};

#[cycle(rate)]
pub(crate) fn rate_of_choice(left: &Query, right: &Query, alloc: Global) -> Result<Rate, AllocError>
    ensures { IfOk result (λ made. rates.plain_of made ≡ rate.choice
        (rate_of (plain_of left.now.shape)) (rate_of (plain_of right.now.shape))) }
{
    let left = left.boxed_rate(alloc)?;
    Ok(Rate::Alt(left, right.boxed_rate(alloc)?))
}

#[cycle(rate)]
pub(crate) fn rate_of_split(left: &Query, right: &Query, alloc: Global) -> Result<Rate, AllocError>
    ensures { IfOk result (λ made. rates.plain_of made ≡ rate.sequence
        (rate_of (plain_of left.now.shape)) (rate_of (plain_of right.now.shape))) }
{
    let left = left.boxed_rate(alloc)?;
    Ok(Rate::Seq(left, right.boxed_rate(alloc)?))
}

#[cycle(rate)]
pub(crate) fn rate_of_iter(inner: &Query, alloc: Global) -> Result<Rate, AllocError>
    ensures { IfOk result (λ made.
        rates.plain_of made ≡ rate.star (rate_of (plain_of inner.now.shape))) }
{
    Ok(Rate::Star(inner.boxed_rate(alloc)?))
}
