//! How much is kept.
ghost use Rattle.std.specs.Prelude.{◌≡◌, ◌+◌, ◌-◌, ◌^◌, min};
ghost use Rattle.std.specs.List.{sum_by};
ghost use Rattle.compose_eval.specs.Followers.{followers_of};
ghost use Rattle.query_model.specs.Queries.{plain_of};
ghost use Rattle.eval_nodes.specs.Counts.{size_of_keys, size_of_runner, size_of_state};
ghost use Rattle.eval_nodes.specs.Counts.{size_of_track, sizes_of, stored_in};
ghost use Rattle.eval_nodes.specs.Plain.{holding_of, seen_of};

use crate::node_counts::{
    size_of_apply, size_of_atom, size_of_choice, size_of_collect, size_of_combine, size_of_compose,
    size_of_iter, size_of_split,
};
use compose_eval::Instances;
use eval_nodes::{Node, Progress};
use map_collect::{Keys, Tracks};
use query_model::{Query, Shape};
use split_eval::Pending;
use value_ops::{Value, size_of_answer, size_of_value};

/// How much is kept for the query, or 2^64 - 1 if it is more.
#[cycle(stored)]
pub fn stored(query: &Query, node: &Node) -> u64
    ensures { result ≡ min (stored_in seen_of (plain_of query.now.shape)
        (holding_of node.now.state)) (2 ^ 64 - 1) }
{
    match &query.shape {
        Shape::Atom(..) => size_of_atom(node),
        Shape::Eps(_) => 0,
        Shape::Or(left, right) => size_of_choice(left, right, node),
        Shape::Apply(inner, _) => size_of_apply(inner, node),
        Shape::Split(left, right, _) => size_of_split(left, right, node),
        Shape::Combine(left, right, _) => size_of_combine(left, right, node),
        Shape::Iter(inner, ..) => size_of_iter(inner, node),
        Shape::Compose(left, right) => size_of_compose(left, right, node),
        Shape::Collect(_, _, _, inner) => size_of_collect(inner, node),
    }
}

/// How much is kept for a runner: its position, its answer and its node.
#[cycle(stored)]
pub fn size_of_runner(query: &Query, runner: &Progress) -> u64
    ensures { result ≡ min (size_of_runner seen_of
        (stored_in seen_of (plain_of query.now.shape)) runner.now) (2 ^ 64 - 1) }
{
    let answer = size_of_answer(&runner.answer);
    stored(query, &runner.node)
        .saturating_add(answer)
        .saturating_add(1)
}

#[cycle(stored)]
pub(crate) fn size_of_live(query: &Query, runners: &Instances<Progress>) -> u64
    ensures { result ≡ min (sum_by (λ runner. 1 + size_of_runner seen_of
        (stored_in seen_of (plain_of query.now.shape)) runner)
        (followers_of runners.now.live)) (2 ^ 64 - 1) }
{
    let mut sum: u64 = 0;
    'live: for i in 0..runners.len() {
        sum = sum
            .saturating_add(1)
            .saturating_add(size_of_runner(query, runners.follower(i)));
    }
    sum
}

#[cycle(stored)]
pub(crate) fn size_of_idle(query: &Query, runners: &Instances<Progress>) -> u64
    ensures { result ≡ min (sum_by (λ runner. 1 + size_of_runner seen_of
        (stored_in seen_of (plain_of query.now.shape)) runner) runners.now.idle) (2 ^ 64 - 1) }
{
    let mut sum: u64 = 0;
    'idle: for i in 0..runners.idle() {
        sum = sum
            .saturating_add(1)
            .saturating_add(size_of_runner(query, runners.resting(i)));
    }
    sum
}

/// How much is kept for the starts of a collect: each start, its state and its runners.
#[cycle(stored)]
pub(crate) fn size_of_tracks(query: &Query, tracks: &Tracks<Progress>) -> u64
    ensures { result ≡ min (sum_by (λ track. size_of_track seen_of
        (stored_in seen_of (plain_of query.now.shape)) track) tracks.now.tracks) (2 ^ 64 - 1) }
{
    let mut sum: u64 = 0;
    'starts: for i in 0..tracks.len() {
        sum = sum
            .saturating_add(1)
            .saturating_add(size_of_state(tracks.state(i)))
            .saturating_add(size_of_keys(query, tracks.keys(i)));
    }
    sum
}

#[cycle(stored)]
fn size_of_keys(query: &Query, keys: &Keys<Progress>) -> u64
    ensures { result ≡ min (size_of_keys seen_of (stored_in seen_of (plain_of query.now.shape))
        keys.now) (2 ^ 64 - 1) }
{
    let mut sum = size_of_runner(query, keys.fallback());
    'keys: for i in 0..keys.len() {
        sum = sum
            .saturating_add(1)
            .saturating_add(size_of_runner(query, keys.follower(i)));
    }
    sum
}

fn size_of_state(state: rate_expr::State) -> u64
    ensures { result ≡ size_of_state state }
{
    match state {
        rate_expr::State::Initial => 0,
        rate_expr::State::At(mask) => u64::from(mask.count_ones()),
    }
}

pub(crate) fn size_of_entries(held: &Pending<Value>) -> u64
    ensures { result ≡ min (sizes_of held.now.entries) (2 ^ 64 - 1) }
{
    let mut sum: u64 = 0;
    'entries: for i in 0..held.len() {
        sum = sum
            .saturating_add(2)
            .saturating_add(size_of_value(&held.entry(i).value));
    }
    sum
}
