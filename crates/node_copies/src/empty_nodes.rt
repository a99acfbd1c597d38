//! Nodes are emptied, so that they stand for the empty word again. Their memory is not freed.
ghost use Rattle.std.specs.Prelude.{◌≡◌, ℤ, length};
ghost use Rattle.predicates.specs.Predicates.{Predicate};
ghost use Rattle.expressions.specs.Expressions.{Expression};
ghost use Rattle.query_model.specs.Queries.{apply, atom, choice, combine, compose, iter, plain_of};
ghost use Rattle.query_model.specs.Queries.{split};
ghost use Rattle.eval_nodes.specs.Cleared.{AreCleared, IsCleared};
ghost use Rattle.eval_nodes.specs.Plain.{holding_of, seen_of};

use compose_eval::Instances;
use eval_nodes::{Node, Progress, State};
use query_model::{Query, Shape};

/// The node then stands for the empty word, without a start.
#[cycle(clear)]
pub fn clear(query: &Query, node: &mut Node)
    ensures { IsCleared seen_of (plain_of query.now.shape) (holding_of node.old.state)
        (holding_of node.new.state) }
{
    match &query.shape {
        Shape::Atom(..) => clear_atom(node),
        Shape::Eps(_) => {}
        Shape::Or(left, right) => clear_choice(left, right, node),
        Shape::Apply(inner, _) => clear_apply(inner, node),
        Shape::Split(left, right, _) => clear_split(left, right, node),
        Shape::Combine(left, right, _) => clear_combine(left, right, node),
        Shape::Iter(inner, ..) => clear_iter(inner, node),
        Shape::Compose(left, right) => clear_compose(left, right, node),
        // Only the nodes of runners are emptied, and their queries have no collect.
        Shape::Collect(..) => {}
    }
}

#[inline(always)]
fn clear_atom(node: &mut Node)
    ensures { (pred : Predicate) (expression : Expression)
        → IsCleared seen_of (atom pred expression) (holding_of node.old.state)
        (holding_of node.new.state) }
{
    if let State::Atom(found) = &mut node.state {
        *found = None;
    }
}

#[cycle(clear)]
#[inline(always)]
fn clear_choice(left: &Query, right: &Query, node: &mut Node)
    ensures { IsCleared seen_of (choice (plain_of left.now.shape) (plain_of right.now.shape))
        (holding_of node.old.state) (holding_of node.new.state) }
{
    if let State::Or(a, b) = &mut node.state {
        clear(left, a);
        clear(right, b);
    }
}

#[cycle(clear)]
#[inline(always)]
fn clear_apply(inner: &Query, node: &mut Node)
    ensures { (expression : Expression)
        → IsCleared seen_of (apply (plain_of inner.now.shape) expression)
        (holding_of node.old.state) (holding_of node.new.state) }
{
    if let State::Apply(a) = &mut node.state {
        clear(inner, a);
    }
}

// No left value waits.
#[cycle(clear)]
#[inline(always)]
fn clear_split(left: &Query, right: &Query, node: &mut Node)
    ensures { (expression : Expression) → IsCleared seen_of
        (split (plain_of left.now.shape) (plain_of right.now.shape) expression)
        (holding_of node.old.state) (holding_of node.new.state) }
{
    if let State::Split(a, b, held) = &mut node.state {
        clear(left, a);
        clear(right, b);
        held.keep(|_| false);
    }
}

#[cycle(clear)]
#[inline(always)]
fn clear_combine(left: &Query, right: &Query, node: &mut Node)
    ensures { (expression : Expression) → IsCleared seen_of
        (combine (plain_of left.now.shape) (plain_of right.now.shape) expression)
        (holding_of node.old.state) (holding_of node.new.state) }
{
    if let State::Combine(a, b) = &mut node.state {
        clear(left, a);
        clear(right, b);
    }
}

// No value so far waits.
#[cycle(clear)]
#[inline(always)]
fn clear_iter(inner: &Query, node: &mut Node)
    ensures { (number : ℤ) (expression : Expression)
        → IsCleared seen_of (iter (plain_of inner.now.shape) number expression)
        (holding_of node.old.state) (holding_of node.new.state) }
{
    if let State::Iter(a, so_far) = &mut node.state {
        clear(inner, a);
        so_far.keep(|_| false);
    }
}

// All its runners are idle.
#[cycle(clear)]
#[inline(always)]
fn clear_compose(left: &Query, right: &Query, node: &mut Node)
    ensures { IsCleared seen_of (compose (plain_of left.now.shape) (plain_of right.now.shape))
        (holding_of node.old.state) (holding_of node.new.state) }
{
    if let State::Compose(a, runners) = &mut node.state {
        clear(left, a);
        runners.keep(|_| false);
        clear_idle(right, runners);
    }
}

#[cycle(clear)]
fn clear_idle(query: &Query, runners: &mut Instances<Progress>)
    ensures idle { AreCleared seen_of (plain_of query.now.shape) (length runners.old.idle)
        runners.old.idle runners.new.idle }
    ensures live { runners.new.live ≡ runners.old.live }
{
    'idle: for i in 0..runners.idle() {
        let runner = runners.resting_mut(i);
        clear(query, &mut runner.node);
        runner.answer = None;
    }
}
