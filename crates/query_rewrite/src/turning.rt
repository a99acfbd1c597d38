//! Whether compositions may be grouped from the left.
ghost use Rattle.std.specs.Prelude.{◌≡◌, ◌<◌, ◌^◌};
ghost use Rattle.query_model.specs.Queries.{plain_of};
ghost use Rattle.query_model.specs.Rates.{rate_of};
ghost use Rattle.query_rewrite.specs.Steps.{has_empty, turn};
ghost use Rattle.rate_expr.specs.Plain as rates;

use memory_bound::{places, slots, width};
use query_model::{Query, Shape};
use rate_expr::Rate;

/// Whether a composition of something with a composition of these two may be grouped from
/// the left: the first has no value on no items, and no more is kept.
pub(crate) fn can_turn(middle: &Query, last: &Query) -> bool
    ensures { result ≡ turn (plain_of middle.now.shape) (plain_of last.now.shape) }
{
    if has_empty_word(middle) {
        return false;
    }
    let runners = u64::from(places(middle)).saturating_mul(u64::from(slots(last)) + 1);
    u64::from(width(middle)) <= u64::from(width(last)).saturating_add(runners)
}

/// Whether the empty word is in the rate of the query.
fn has_empty_word(query: &Query) -> bool
    ensures { result ≡ has_empty (rate_of (plain_of query.now.shape)) }
{
    match &query.shape {
        Shape::Atom(..) => false,
        Shape::Eps(_) | Shape::Iter(..) => true,
        Shape::Or(left, right) => has_empty_word(left) || has_empty_word(right),
        Shape::Split(left, right, _) => has_empty_word(left) && has_empty_word(right),
        Shape::Combine(inner, ..) | Shape::Apply(inner, _) | Shape::Compose(inner, _) => {
            has_empty_word(inner)
        }
        Shape::Collect(_, _, rate, _) => is_empty_in(rate),
    }
}

fn is_empty_in(rate: &Rate) -> bool
    ensures { result ≡ has_empty (rates.plain_of rate.now) }
{
    match rate {
        Rate::Empty | Rate::Star(_) => true,
        Rate::One(_) => false,
        Rate::Seq(left, right) => is_empty_in(left) && is_empty_in(right),
        Rate::Alt(left, right) => is_empty_in(left) || is_empty_in(right),
    }
}
