//! Which starts are live.
ghost use Rattle.std.specs.Prelude.{◌≡◌, ℕ, ℤ, Bool, List};
ghost use Rattle.predicates.specs.Predicates.{Predicate};
ghost use Rattle.rate_expr.specs.Rates as rates;
ghost use Rattle.expressions.specs.Expressions.{Expression};
ghost use Rattle.query_model.specs.Queries.{Qre, apply, atom, choice, collect, combine, compose};
ghost use Rattle.query_model.specs.Queries.{iter, plain_of, split};
ghost use Rattle.eval_nodes.specs.Live.{is_outer, live_of};
ghost use Rattle.eval_nodes.specs.Plain.{holding_of, seen_of};
ghost use Rattle.eval_nodes.specs.Lives.{Lives};

use crate::{Node, State};
use query_model::{Query, Shape};
use split_eval::Pending;
use value_ops::Value;

/// Whether the start is there and its piece can be extended by at least one item.
#[cycle(is_live)]
pub fn is_live(query: &Query, node: &Node, start: u64) -> bool
    ensures lives { Lives seen_of (plain_of query.now.shape) (holding_of node.now.state) start
        result }
    ensures read { result ≡ live_of (plain_of query.now.shape) (holding_of node.now.state) start }
{
    match &query.shape {
        Shape::Atom(..) => is_live_in_atom(node, start),
        Shape::Eps(_) => false,
        Shape::Or(left, right) => is_live_in_choice(left, right, node, start),
        Shape::Apply(inner, _) => is_live_in_apply(inner, node, start),
        Shape::Split(left, ..) => is_live_in_split(left, node, start),
        Shape::Combine(left, ..) => is_live_in_combine(left, node, start),
        Shape::Iter(..) => is_live_in_iter(node, start),
        Shape::Compose(left, _) => is_live_in_compose(left, node, start),
        Shape::Collect(..) => is_live_in_collect(node, start),
    }
}

#[inline(always)]
fn is_live_in_atom(node: &Node, start: u64) -> bool
    ensures { (pred : Predicate) (expression : Expression)
        → result ≡ live_of (atom pred expression) (holding_of node.now.state) start }
{
    match &node.state {
        State::Atom(Some(found)) => *found == start,
        _ => false,
    }
}

#[cycle(is_live)]
#[inline(always)]
fn is_live_in_choice(left: &Query, right: &Query, node: &Node, start: u64) -> bool
    ensures { result ≡ live_of (choice (plain_of left.now.shape) (plain_of right.now.shape))
        (holding_of node.now.state) start }
{
    match &node.state {
        State::Or(a, b) => is_live(left, a, start) || is_live(right, b, start),
        _ => false,
    }
}

#[cycle(is_live)]
#[inline(always)]
fn is_live_in_apply(inner: &Query, node: &Node, start: u64) -> bool
    ensures { (expression : Expression) → result
        ≡ live_of (apply (plain_of inner.now.shape) expression) (holding_of node.now.state) start }
{
    match &node.state {
        State::Apply(a) => is_live(inner, a, start),
        _ => false,
    }
}

#[cycle(is_live)]
#[inline(always)]
fn is_live_in_split(first: &Query, node: &Node, start: u64) -> bool
    ensures { (second : Qre) (expression : Expression) → result ≡ live_of
        (split (plain_of first.now.shape) second expression) (holding_of node.now.state) start }
{
    match &node.state {
        State::Split(a, _, held) => is_live(first, a, start) || has_outer(held, start),
        _ => false,
    }
}

#[cycle(is_live)]
#[inline(always)]
fn is_live_in_combine(first: &Query, node: &Node, start: u64) -> bool
    ensures { (second : Qre) (expression : Expression) → result ≡ live_of
        (combine (plain_of first.now.shape) second expression) (holding_of node.now.state) start }
{
    match &node.state {
        State::Combine(a, _) => is_live(first, a, start),
        _ => false,
    }
}

#[inline(always)]
fn is_live_in_iter(node: &Node, start: u64) -> bool
    ensures { (inner : Qre) (number : ℤ) (expression : Expression) → result
        ≡ live_of (iter inner number expression) (holding_of node.now.state) start }
{
    match &node.state {
        State::Iter(_, so_far) => has_outer(so_far.as_pending(), start),
        _ => false,
    }
}

#[cycle(is_live)]
#[inline(always)]
fn is_live_in_compose(first: &Query, node: &Node, start: u64) -> bool
    ensures { (second : Qre) → result ≡ live_of
        (compose (plain_of first.now.shape) second) (holding_of node.now.state) start }
{
    match &node.state {
        State::Compose(a, _) => is_live(first, a, start),
        _ => false,
    }
}

// A collect keeps only live starts.
#[inline(always)]
fn is_live_in_collect(node: &Node, start: u64) -> bool
    ensures { (chosen : List ℕ) (sync : Predicate) (rate : rates.Regex) (inner : Qre) → result
        ≡ live_of (collect chosen sync rate inner) (holding_of node.now.state) start }
{
    match &node.state {
        State::Collect(tracks, _) => tracks.place(start).is_some(),
        _ => false,
    }
}

/// Whether a left value waits that has this outer start.
fn has_outer(held: &Pending<Value>, start: u64) -> bool
    ensures { result ≡ is_outer held.now.entries start }
{
    'entries: for i in 0..held.len() {
        if held.entry(i).outer == start {
            return true;
        }
    }
    false
}
