//! The runners for keys, when an item goes by.
ghost use Rattle.std.specs.Prelude.{◌≡◌, IfOk, OnErr, OnOk};
ghost use Rattle.predicates.specs.Plain as predicates;
ghost use Rattle.query_model.specs.Keys.{key_of};
ghost use Rattle.query_model.specs.Queries.{plain_of};
ghost use Rattle.eval_nodes.specs.Plain.{seen_of};
ghost use Rattle.step_laws.specs.Collects.{CanPush, IsPushed};
ghost use Rattle.step_laws.specs.OutOfMemory.{IsKeyLeft, IsLeft};
ghost use Rattle.step_laws.specs.OwnKeys.{IsKeyAtHand};
ghost use Rattle.step_laws.specs.Pushes.{AllCarried, HasKey, IsKeyPushed};

use crate::right_runners::carry;
use eval_nodes::Progress;
use item_schema::Item;
use joined_texts::Joined;
use map_collect::Keys;
use node_copies::copy_of_runner;
use predicates::{Pred, holds};
use query_model::{Query, join_texts, text_in};
use std::alloc::{AllocError, Global};

/// An item that meets the predicate is one of every key, also of keys that are still to come. Any
/// other is one of its own key; for a new key, a runner is copied first. The key of several columns
/// is made in `joined`, whose room is kept for the next item.
#[cycle(step)]
pub fn keys_push(
    query: &Query,
    keys: &mut Keys<Progress>,
    alloc: Global,
    columns: &[u32],
    joined: &mut Joined,
    sync: &Pred,
    item: &Item,
) -> Result<(), AllocError>
    requires { CanPush seen_of (plain_of query.now.shape) keys.old item.now }
    ensures pushed { IfOk result (λ done. IsPushed seen_of (plain_of query.now.shape) columns.now
        (predicates.plain_of sync.now) keys.old item.now keys.new) }
    ensures left { OnErr result (IsLeft seen_of (plain_of query.now.shape) columns.now
        (predicates.plain_of sync.now) keys.old item.now keys.new) }
{
    if holds(sync, item) {
        push_to_each(query, keys, alloc, item)
    } else {
        push_to_own(query, keys, alloc, columns, joined, item)
    }
}

#[cycle(step)]
fn push_to_own(
    query: &Query,
    keys: &mut Keys<Progress>,
    alloc: Global,
    columns: &[u32],
    joined: &mut Joined,
    item: &Item,
) -> Result<(), AllocError>
    requires { CanPush seen_of (plain_of query.now.shape) keys.old item.now }
    ensures pushed { IfOk result (λ done. IsKeyPushed seen_of (plain_of query.now.shape)
        (key_of columns.now item.now) item.now keys.old keys.new) }
    ensures left { OnErr result (IsKeyLeft seen_of (plain_of query.now.shape)
        (key_of columns.now item.now) keys.old keys.new) }
{
    join_several(joined, columns, item)?;
    push_to_key(query, keys, alloc, own_key(&*joined, columns, &*item), item)
}

/// Joins the texts of a key of several columns.
#[tactic(auto, using(query_model::proofs::KeyCases::key_of_others))]
fn join_several(joined: &mut Joined, columns: &[u32], item: &Item) -> Result<(), AllocError>
    ensures { OnOk result (IsKeyAtHand columns.now item.now joined.new) }
{
    if columns.len() == 1 {
        return Ok(());
    }
    join_texts(joined, columns, item)
}

/// The key of one column is the text as it lies in the item, and any other is what was joined.
#[tactic(auto, using(query_model::proofs::KeyCases::key_of_one))]
fn own_key<'k>(joined: &'k Joined, columns: &[u32], item: &'k Item<'_>) -> &'k [u8]
    requires { IsKeyAtHand columns.now item.now joined.now }
    ensures { result.now ≡ key_of columns.now item.now }
{
    match columns {
        [column] => text_in(item, *column),
        _ => joined.as_slice(),
    }
}

#[cycle(step)]
fn push_to_each(
    query: &Query,
    keys: &mut Keys<Progress>,
    alloc: Global,
    item: &Item,
) -> Result<(), AllocError>
    requires { CanPush seen_of (plain_of query.now.shape) keys.old item.now }
    ensures { IfOk result (λ done. AllCarried seen_of (plain_of query.now.shape) item.now keys.old
        keys.new) }
{
    carry(query, keys.fallback_mut(), alloc, item)?;
    'keys: for i in 0..keys.len() {
        carry(query, keys.follower_mut(i), alloc, item)?;
    }
    Ok(())
}

#[cycle(step)]
fn push_to_key(
    query: &Query,
    keys: &mut Keys<Progress>,
    alloc: Global,
    key: &[u8],
    item: &Item,
) -> Result<(), AllocError>
    requires { CanPush seen_of (plain_of query.now.shape) keys.old item.now }
    ensures pushed { IfOk result (λ done. IsKeyPushed seen_of (plain_of query.now.shape) key.now
        item.now keys.old keys.new) }
    ensures left { OnErr result (IsKeyLeft seen_of (plain_of query.now.shape) key.now keys.old
        keys.new) }
{
    let place = place_or_new(query, keys, alloc, key)?;
    carry(query, keys.follower_mut(place), alloc, item)
}

/// A new key is put last, with a copy of the runner that is kept for new keys.
fn place_or_new(
    query: &Query,
    keys: &mut Keys<Progress>,
    alloc: Global,
    key: &[u8],
) -> Result<usize, AllocError>
    ensures has { IfOk result (λ place. HasKey seen_of (plain_of query.now.shape) key.now keys.old
        place keys.new) }
    ensures unchanged { OnErr result (keys.new ≡ keys.old) }
{
    match keys.place(key) {
        Some(place) => Ok(place),
        None => {
            let runner = copy_of_runner(query, keys.fallback(), alloc)?;
            let place = keys.len();
            keys.add(key, runner)?;
            Ok(place)
        }
    }
}
