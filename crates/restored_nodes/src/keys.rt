//! The runners of a start of a collect are put back.
ghost use Rattle.std.specs.Prelude.{◌≡◌, [], IfOk, None, OnOk, map};
ghost use Rattle.std.specs.List.{AllByRecursion, AllZip, IsDistinct};
ghost use Rattle.std.specs.Str.{bytes_eq};
ghost use Rattle.query_model.specs.Queries.{plain_of};
ghost use Rattle.map_collect.specs.Keys.{fallback_of, followers_of, keyed_of, names_of};
ghost use Rattle.eval_nodes.specs.Plain.{seen_of};
ghost use Rattle.runner_snapshot.specs.Plain.{keys_of, plain_runner};
ghost use Rattle.restored_nodes.specs.Cells.{CanBePutBack};
ghost use Rattle.restored_nodes.specs.Restored.{AreRestoredKeys, IsRestoredRunner};
ghost use Rattle.restored_nodes.specs.Rooms.{HasRoom, HaveKeyRoom, node_of};

use crate::nodes::restored_progress;
use eval_nodes::Progress;
use map_collect::Keys;
use query_model::Query;
use runner_snapshot::{KeyDumps, RunnerDump};
use std::alloc::{AllocError, Global};

/// The runner for later keys, and those for keys.
#[cycle(restore)]
pub(crate) fn restored_keys(
    alloc: Global,
    query: &Query,
    fallback: &RunnerDump,
    dumps: &KeyDumps,
) -> Result<Keys<Progress>, AllocError>
    requires query { CanBePutBack None (plain_of query.now.shape) }
    requires room { HaveKeyRoom (HasRoom (plain_of query.now.shape)) (plain_runner fallback.now)
        (keys_of dumps.now) }
    ensures { IfOk result (AreRestoredKeys seen_of (plain_of query.now.shape)
        (plain_runner fallback.now) (keys_of dumps.now)) }
{
    let fallback = restored_progress(alloc, query, None, fallback)?;
    let mut keys = Keys::new(alloc, fallback);
    match put_keys(alloc, query, dumps, &mut keys) {
        Ok(()) => Ok(keys),
        Err(error) => {
            drop(keys);
            Err(error)
        }
    }
}

#[cycle(restore)]
fn put_keys(
    alloc: Global,
    query: &Query,
    dumps: &KeyDumps,
    keys: &mut Keys<Progress>,
) -> Result<(), AllocError>
    requires none { keyed_of keys.old ≡ record { names = []; followers = [] } }
    requires query { CanBePutBack None (plain_of query.now.shape) }
    requires distinct { IsDistinct bytes_eq (map (λ one. one.key) (keys_of dumps.now)) }
    requires room { AllByRecursion (λ one. HasRoom (plain_of query.now.shape)
        (node_of one.runner)) (keys_of dumps.now) }
    ensures fallback { fallback_of keys.new ≡ fallback_of keys.old }
    ensures names { OnOk result (names_of keys.new ≡ map (λ one. one.key) (keys_of dumps.now)) }
    ensures keyed { OnOk result (AllZip (λ dump one. IsRestoredRunner seen_of None
        (plain_of query.now.shape) dump.runner one) (keys_of dumps.now) (followers_of keys.new)) }
{
    'keys: for i in 0..dumps.len() {
        let (key, dump) = dumps.get(i);
        let runner = restored_progress(alloc, query, None, dump)?;
        keys.add(key, runner)?;
    }
    Ok(())
}
