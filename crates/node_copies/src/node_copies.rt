//! A copy of a node of each shape, made of copies of its operands. A node that is not of the
//! query's shape is copied as empty.
ghost use Rattle.std.specs.Prelude.{ℕ, ℤ, IfOk, List};
ghost use Rattle.predicates.specs.Predicates.{Predicate};
ghost use Rattle.rate_expr.specs.Rates as rates;
ghost use Rattle.expressions.specs.Expressions.{Expression};
ghost use Rattle.query_model.specs.Queries.{apply, atom, choice, collect, combine, compose, iter};
ghost use Rattle.query_model.specs.Queries.{plain_of, split};
ghost use Rattle.eval_nodes.specs.Copies.{IsCopy};
ghost use Rattle.eval_nodes.specs.Plain.{holding_of, seen_of};

use crate::copies::{boxed_copy, copied, copied_runners, copied_tracks};
use eval_nodes::{Node, State};
use iter_eval::Chain;
use joined_texts::Joined;
use query_model::Query;
use std::alloc::{AllocError, Global};

pub(crate) fn copy_of_atom(node: &Node) -> Node
    ensures { (pred : Predicate) (expression : Expression)
        → IsCopy seen_of (atom pred expression) (holding_of node.now.state)
        (holding_of result.state) }
{
    match &node.state {
        State::Atom(found) => Node {
            state: State::Atom(*found),
        },
        _ => Node { state: State::Eps },
    }
}

#[cycle(copy)]
pub(crate) fn copy_of_choice(
    left: &Query,
    right: &Query,
    node: &Node,
    alloc: Global,
) -> Result<Node, AllocError>
    ensures { IfOk result (λ copy. IsCopy seen_of
        (choice (plain_of left.now.shape) (plain_of right.now.shape))
        (holding_of node.now.state) (holding_of copy.state)) }
{
    match &node.state {
        State::Or(a, b) => {
            let a = boxed_copy(left, a, alloc)?;
            let b = boxed_copy(right, b, alloc)?;
            Ok(Node {
                state: State::Or(a, b),
            })
        }
        _ => Ok(Node { state: State::Eps }),
    }
}

#[cycle(copy)]
pub(crate) fn copy_of_combine(
    left: &Query,
    right: &Query,
    node: &Node,
    alloc: Global,
) -> Result<Node, AllocError>
    ensures { IfOk result (λ copy. (expression : Expression) → IsCopy seen_of
        (combine (plain_of left.now.shape) (plain_of right.now.shape) expression)
        (holding_of node.now.state) (holding_of copy.state)) }
{
    match &node.state {
        State::Combine(a, b) => {
            let a = boxed_copy(left, a, alloc)?;
            let b = boxed_copy(right, b, alloc)?;
            Ok(Node {
                state: State::Combine(a, b),
            })
        }
        _ => Ok(Node { state: State::Eps }),
    }
}

#[cycle(copy)]
pub(crate) fn copy_of_apply(inner: &Query, node: &Node, alloc: Global) -> Result<Node, AllocError>
    ensures { IfOk result (λ copy. (expression : Expression) → IsCopy seen_of
        (apply (plain_of inner.now.shape) expression)
        (holding_of node.now.state) (holding_of copy.state)) }
{
    match &node.state {
        State::Apply(a) => {
            let a = boxed_copy(inner, a, alloc)?;
            Ok(Node {
                state: State::Apply(a),
            })
        }
        _ => Ok(Node { state: State::Eps }),
    }
}

#[cycle(copy)]
pub(crate) fn copy_of_split(
    left: &Query,
    right: &Query,
    node: &Node,
    alloc: Global,
) -> Result<Node, AllocError>
    ensures { IfOk result (λ copy. (expression : Expression) → IsCopy seen_of
        (split (plain_of left.now.shape) (plain_of right.now.shape) expression)
        (holding_of node.now.state) (holding_of copy.state)) }
{
    match &node.state {
        State::Split(a, b, held) => {
            let a = boxed_copy(left, a, alloc)?;
            let b = boxed_copy(right, b, alloc)?;
            let held = copied(alloc, held)?;
            Ok(Node {
                state: State::Split(a, b, held),
            })
        }
        _ => Ok(Node { state: State::Eps }),
    }
}

#[cycle(copy)]
pub(crate) fn copy_of_iter(inner: &Query, node: &Node, alloc: Global) -> Result<Node, AllocError>
    ensures { IfOk result (λ copy. (number : ℤ) (expression : Expression) → IsCopy seen_of
        (iter (plain_of inner.now.shape) number expression)
        (holding_of node.now.state) (holding_of copy.state)) }
{
    match &node.state {
        State::Iter(a, so_far) => {
            let a = boxed_copy(inner, a, alloc)?;
            let so_far = Chain::from_pending(copied(alloc, so_far.as_pending())?);
            Ok(Node {
                state: State::Iter(a, so_far),
            })
        }
        _ => Ok(Node { state: State::Eps }),
    }
}

#[cycle(copy)]
pub(crate) fn copy_of_compose(
    left: &Query,
    right: &Query,
    node: &Node,
    alloc: Global,
) -> Result<Node, AllocError>
    ensures { IfOk result (λ copy. IsCopy seen_of
        (compose (plain_of left.now.shape) (plain_of right.now.shape))
        (holding_of node.now.state) (holding_of copy.state)) }
{
    match &node.state {
        State::Compose(a, runners) => {
            let a = boxed_copy(left, a, alloc)?;
            let runners = copied_runners(right, runners, alloc)?;
            Ok(Node {
                state: State::Compose(a, runners),
            })
        }
        _ => Ok(Node { state: State::Eps }),
    }
}

#[cycle(copy)]
pub(crate) fn copy_of_collect(inner: &Query, node: &Node, alloc: Global) -> Result<Node, AllocError>
    ensures { IfOk result (λ copy. (chosen : List ℕ) (sync : Predicate) (rate : rates.Regex)
        → IsCopy seen_of (collect chosen sync rate (plain_of inner.now.shape))
        (holding_of node.now.state) (holding_of copy.state)) }
{
    match &node.state {
        State::Collect(tracks, _) => {
            let tracks = copied_tracks(inner, tracks, alloc)?;
            Ok(Node {
                state: State::Collect(tracks, Joined::new(alloc)),
            })
        }
        _ => Ok(Node { state: State::Eps }),
    }
}
