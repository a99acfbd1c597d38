//! Copies of nodes.
ghost use Rattle.std.specs.Prelude.{◌≡◌, ◌+◌, ◌≤◌, [], length, IfOk};
ghost use Rattle.compose_eval.specs.Followers.{followers_of, outers_of};
ghost use Rattle.map_collect.specs.Keys.{fallback_of, followers_of as keyed_followers, keyed_of};
ghost use Rattle.map_collect.specs.Keys.{names_of};
ghost use Rattle.query_model.specs.Queries.{plain_of};
ghost use Rattle.eval_nodes.specs.Copies.{AreAlike, AreCopied, AreCopiedKeys, AreCopiedTracks};
ghost use Rattle.eval_nodes.specs.Copies.{IsCopy, IsCopyOf};
ghost use Rattle.eval_nodes.specs.Plain.{holding_of, seen_of};

use crate::node_copies::{
    copy_of_apply, copy_of_atom, copy_of_choice, copy_of_collect, copy_of_combine, copy_of_compose,
    copy_of_iter, copy_of_split,
};
use compose_eval::Instances;
use eval_nodes::{Node, Progress, State};
use map_collect::{Keys, Tracks};
use query_model::{Query, Shape};
use split_eval::Pending;
use std::alloc::{AllocError, Global};
use value_ops::Value;

/// A node that keeps the same for the query.
#[cycle(copy)]
pub fn copy_of_node(query: &Query, node: &Node, alloc: Global) -> Result<Node, AllocError>
    ensures { IfOk result (λ copy. IsCopy seen_of (plain_of query.now.shape)
        (holding_of node.now.state) (holding_of copy.state)) }
{
    match &query.shape {
        Shape::Atom(..) => Ok(copy_of_atom(node)),
        Shape::Eps(_) => Ok(Node { state: State::Eps }),
        Shape::Or(left, right) => copy_of_choice(left, right, node, alloc),
        Shape::Apply(inner, _) => copy_of_apply(inner, node, alloc),
        Shape::Split(left, right, _) => copy_of_split(left, right, node, alloc),
        Shape::Combine(left, right, _) => copy_of_combine(left, right, node, alloc),
        Shape::Iter(inner, ..) => copy_of_iter(inner, node, alloc),
        Shape::Compose(left, right) => copy_of_compose(left, right, node, alloc),
        Shape::Collect(_, _, _, inner) => copy_of_collect(inner, node, alloc),
    }
}

#[cycle(copy)]
pub(crate) fn boxed_copy(query: &Query, node: &Node, alloc: Global) -> Result<Box<Node>, AllocError>
    ensures { IfOk result (λ copy. IsCopy seen_of (plain_of query.now.shape)
        (holding_of node.now.state) (holding_of copy.value.state)) }
{
    Ok(Box::new(alloc, copy_of_node(query, node, alloc)?)?)
}

/// A copy of a runner: its position, its answer and a copy of its node.
#[cycle(copy)]
pub fn copy_of_runner(
    query: &Query,
    runner: &Progress,
    alloc: Global,
) -> Result<Progress, AllocError>
    ensures { IfOk result (IsCopyOf seen_of (IsCopy seen_of (plain_of query.now.shape))
        runner.now) }
{
    let answer = match &runner.answer {
        Some(value) => Some(value.try_copy(alloc)?),
        None => None,
    };
    let node = copy_of_node(query, &runner.node, alloc)?;
    Ok(Progress {
        node,
        position: runner.position,
        answer,
    })
}

#[cycle(copy)]
pub(crate) fn copied_runners(
    query: &Query,
    runners: &Instances<Progress>,
    alloc: Global,
) -> Result<Instances<Progress>, AllocError>
    ensures { IfOk result (AreCopied seen_of (IsCopy seen_of (plain_of query.now.shape))
        runners.now) }
{
    let mut copy = copied_live(query, runners, alloc)?;
    'idle: for i in 0..runners.idle() {
        copy.rest(copy_of_runner(query, runners.resting(i), alloc)?);
    }
    Ok(copy)
}

// Copies of the runners that are fed, from the same starts and with as much room.
#[cycle(copy)]
fn copied_live(
    query: &Query,
    runners: &Instances<Progress>,
    alloc: Global,
) -> Result<Instances<Progress>, AllocError>
    ensures room { IfOk result (λ copy. copy.room ≡ runners.now.room) }
    ensures idle { IfOk result (λ copy. copy.idle ≡ []) }
    ensures starts { IfOk result (λ copy. outers_of copy.live ≡ outers_of runners.now.live) }
    ensures live { IfOk result (λ copy.
        AreAlike (IsCopyOf seen_of (IsCopy seen_of (plain_of query.now.shape)))
        (followers_of runners.now.live) (followers_of copy.live)) }
    ensures few { IfOk result (λ copy.
        length copy.live + length runners.now.idle ≤ copy.room) }
{
    let mut copy = Instances::new(alloc, runners.room())?;
    'live: for i in 0..runners.len() {
        let follower = copy_of_runner(query, runners.follower(i), alloc)?;
        copy.put(runners.outer(i), follower);
    }
    Ok(copy)
}

/// Copies of the starts of a collect: the same starts and states, and copies of the runners.
#[cycle(copy)]
pub(crate) fn copied_tracks(
    query: &Query,
    tracks: &Tracks<Progress>,
    alloc: Global,
) -> Result<Tracks<Progress>, AllocError>
    ensures { IfOk result (AreCopiedTracks seen_of (IsCopy seen_of (plain_of query.now.shape))
        tracks.now) }
{
    let mut copy = Tracks::new(alloc, tracks.nfa().try_copy(alloc)?);
    'starts: for i in 0..tracks.len() {
        let keys = copied_keys(query, tracks.keys(i), alloc)?;
        copy.put(tracks.start(i), tracks.state(i), keys)?;
    }
    Ok(copy)
}

#[cycle(copy)]
fn copied_keys(
    query: &Query,
    keys: &Keys<Progress>,
    alloc: Global,
) -> Result<Keys<Progress>, AllocError>
    ensures { IfOk result (AreCopiedKeys seen_of (IsCopy seen_of (plain_of query.now.shape))
        keys.now) }
{
    let fallback = copy_of_runner(query, keys.fallback(), alloc)?;
    let mut copy = Keys::new(alloc, fallback);
    match copy_followers(query, keys, &mut copy, alloc) {
        Ok(()) => Ok(copy),
        Err(error) => {
            drop(copy);
            Err(error)
        }
    }
}

// The same keys, each with a copy of its runner.
#[cycle(copy)]
fn copy_followers(
    query: &Query,
    keys: &Keys<Progress>,
    copy: &mut Keys<Progress>,
    alloc: Global,
) -> Result<(), AllocError>
    requires { keyed_of copy.old ≡ record { names = []; followers = [] } }
    ensures fallback { fallback_of copy.new ≡ fallback_of copy.old }
    ensures names { IfOk result (λ done. names_of copy.new ≡ names_of keys.now) }
    ensures keyed { IfOk result (λ done.
        AreAlike (IsCopyOf seen_of (IsCopy seen_of (plain_of query.now.shape)))
        (keyed_followers keys.now) (keyed_followers copy.new)) }
{
    'keys: for i in 0..keys.len() {
        let follower = copy_of_runner(query, keys.follower(i), alloc)?;
        copy.add(keys.key(i), follower)?;
    }
    Ok(())
}

/// The same left values, in the same order and with as much room.
pub(crate) fn copied(alloc: Global, held: &Pending<Value>) -> Result<Pending<Value>, AllocError>
    ensures { IfOk result (λ copy. copy ≡ held.now) }
{
    let mut copy = Pending::new(alloc, held.room())?;
    'entries: for i in 0..held.len() {
        let entry = held.entry(i);
        copy.put(entry.inner, entry.outer, entry.value.try_copy(alloc)?);
    }
    Ok(copy)
}
