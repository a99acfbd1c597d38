//! The bounds on memory that hold for a query, found in one pass over it.
ghost use Rattle.std.specs.Prelude.{◌≡◌, ◌-◌, ◌^◌, min};
ghost use Rattle.query_model.specs.Bounds.{inner_of, places_of, slots_of, width_of, width_with};
ghost use Rattle.query_model.specs.Queries.{plain_of};
ghost use Rattle.expressions.specs.Expressions as expr;

use crate::demand::Demand;
use expressions::{Expr, Var};
use query_model::{Query, Shape};

/// How many starts of the query may be live at one time, at most 2^32 - 1.
pub fn places(query: &Query) -> u32
    ensures { result ≡ min (places_of (plain_of query.now.shape)) (2 ^ 32 - 1) }
{
    demand_of(query).places
}

/// How many slots the runner of the query keeps, at most 2^32 - 1.
pub fn slots(query: &Query) -> u32
    ensures { result ≡ min (slots_of (plain_of query.now.shape)) (2 ^ 32 - 1) }
{
    demand_of(query).slots()
}

/// How many numbers the values of the query have as records, and 1 where they are none.
pub fn width(query: &Query) -> u32
    ensures { result ≡ width_of (plain_of query.now.shape) }
{
    demand_of(query).width
}

fn demand_of(query: &Query) -> Demand
    ensures places { result.places ≡ min (places_of (plain_of query.now.shape)) (2 ^ 32 - 1) }
    ensures inner { result.inner ≡ min (inner_of (plain_of query.now.shape)) (2 ^ 32 - 1) }
    ensures width { result.width ≡ width_of (plain_of query.now.shape) }
{
    match &query.shape {
        Shape::Atom(_, value) => Demand::ITEM.of_width(width_with(1, 1, value)),
        Shape::Eps(_) => Demand::NOTHING,
        Shape::Or(left, right) => demand_of(left).beside(demand_of(right)),
        Shape::Split(left, right, value) => {
            let (left, right) = (demand_of(left), demand_of(right));
            left.then(right)
                .of_width(width_with(left.width, right.width, value))
        }
        Shape::Iter(inner, ..) => demand_of(inner).repeated(),
        Shape::Combine(left, right, value) => {
            let (left, right) = (demand_of(left), demand_of(right));
            left.beside(right)
                .of_width(width_with(left.width, right.width, value))
        }
        Shape::Apply(inner, value) => {
            let inner = demand_of(inner);
            inner.of_width(width_with(inner.width, 1, value))
        }
        Shape::Compose(left, right) => demand_of(left).read_by(demand_of(right)),
        Shape::Collect(_, _, rate, inner) => demand_of(inner).along(rate.positions()),
    }
}

/// The width of an expression, from those of its left and its right value.
fn width_with(left: u32, right: u32, value: &Expr) -> u32
    ensures { result ≡ width_with left right (expr.plain_of value.now) }
{
    match value {
        Expr::Read(Var::Left) => left,
        Expr::Read(Var::Right) => right,
        Expr::Rec(parts) => parts.as_slice().len() as u32,
        _ => 1,
    }
}
