//! How much is kept in a node of each shape. A node that is not of the query's shape counts as 0.
ghost use Rattle.std.specs.Prelude.{◌≡◌, ◌-◌, ◌^◌, ℕ, ℤ, min, List};
ghost use Rattle.predicates.specs.Predicates.{Predicate};
ghost use Rattle.rate_expr.specs.Rates as rates;
ghost use Rattle.expressions.specs.Expressions.{Expression};
ghost use Rattle.query_model.specs.Queries.{apply, atom, choice, collect, combine, compose, iter};
ghost use Rattle.query_model.specs.Queries.{plain_of, split};
ghost use Rattle.eval_nodes.specs.Counts.{stored_in};
ghost use Rattle.eval_nodes.specs.Plain.{holding_of, seen_of};

use crate::counts::{size_of_entries, size_of_idle, size_of_live, size_of_tracks, stored};
use eval_nodes::{Node, State};
use query_model::Query;

pub(crate) fn size_of_atom(node: &Node) -> u64
    ensures { (pred : Predicate) (expression : Expression) → result ≡ min (stored_in seen_of
        (atom pred expression) (holding_of node.now.state)) (2 ^ 64 - 1) }
{
    match &node.state {
        State::Atom(Some(_)) => 1,
        _ => 0,
    }
}

#[cycle(stored)]
pub(crate) fn size_of_choice(left: &Query, right: &Query, node: &Node) -> u64
    ensures { result ≡ min (stored_in seen_of
        (choice (plain_of left.now.shape) (plain_of right.now.shape))
        (holding_of node.now.state)) (2 ^ 64 - 1) }
{
    match &node.state {
        State::Or(a, b) => stored(left, a).saturating_add(stored(right, b)),
        _ => 0,
    }
}

#[cycle(stored)]
pub(crate) fn size_of_apply(inner: &Query, node: &Node) -> u64
    ensures { (expression : Expression) → result ≡ min (stored_in seen_of
        (apply (plain_of inner.now.shape) expression)
        (holding_of node.now.state)) (2 ^ 64 - 1) }
{
    match &node.state {
        State::Apply(a) => stored(inner, a),
        _ => 0,
    }
}

#[cycle(stored)]
pub(crate) fn size_of_split(left: &Query, right: &Query, node: &Node) -> u64
    ensures { (expression : Expression) → result ≡ min (stored_in seen_of
        (split (plain_of left.now.shape) (plain_of right.now.shape) expression)
        (holding_of node.now.state)) (2 ^ 64 - 1) }
{
    match &node.state {
        State::Split(a, b, held) => {
            let operands = stored(left, a).saturating_add(stored(right, b));
            operands.saturating_add(size_of_entries(held))
        }
        _ => 0,
    }
}

#[cycle(stored)]
pub(crate) fn size_of_combine(left: &Query, right: &Query, node: &Node) -> u64
    ensures { (expression : Expression) → result ≡ min (stored_in seen_of
        (combine (plain_of left.now.shape) (plain_of right.now.shape) expression)
        (holding_of node.now.state)) (2 ^ 64 - 1) }
{
    match &node.state {
        State::Combine(a, b) => stored(left, a).saturating_add(stored(right, b)),
        _ => 0,
    }
}

#[cycle(stored)]
pub(crate) fn size_of_iter(inner: &Query, node: &Node) -> u64
    ensures { (number : ℤ) (expression : Expression) → result ≡ min (stored_in seen_of
        (iter (plain_of inner.now.shape) number expression)
        (holding_of node.now.state)) (2 ^ 64 - 1) }
{
    match &node.state {
        State::Iter(a, so_far) => {
            stored(inner, a).saturating_add(size_of_entries(so_far.as_pending()))
        }
        _ => 0,
    }
}

#[cycle(stored)]
pub(crate) fn size_of_compose(first: &Query, second: &Query, node: &Node) -> u64
    ensures { result ≡ min (stored_in seen_of
        (compose (plain_of first.now.shape) (plain_of second.now.shape))
        (holding_of node.now.state)) (2 ^ 64 - 1) }
{
    match &node.state {
        State::Compose(a, runners) => {
            let fed = stored(first, a).saturating_add(size_of_live(second, runners));
            fed.saturating_add(size_of_idle(second, runners))
        }
        _ => 0,
    }
}

#[cycle(stored)]
pub(crate) fn size_of_collect(inner: &Query, node: &Node) -> u64
    ensures { (chosen : List ℕ) (sync : Predicate) (rate : rates.Regex) → result
        ≡ min (stored_in seen_of (collect chosen sync rate (plain_of inner.now.shape))
        (holding_of node.now.state)) (2 ^ 64 - 1) }
{
    match &node.state {
        State::Collect(tracks, _) => size_of_tracks(inner, tracks),
        _ => 0,
    }
}
