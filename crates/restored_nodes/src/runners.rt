//! The runners of a compose are put back.
ghost use Rattle.std.specs.Prelude.{◌≡◌, ◌+◌, [], IfOk, List, None, OnOk, length};
ghost use Rattle.std.specs.List.{AllByRecursion, AllZip};
ghost use Rattle.item_schema.specs.declared.column.Column.{Column};
ghost use Rattle.query_model.specs.Bounds.{slots_of};
ghost use Rattle.query_model.specs.Queries.{plain_of};
ghost use Rattle.eval_nodes.specs.Counts.{stored_in};
ghost use Rattle.eval_nodes.specs.Plain.{seen_of};
ghost use Rattle.eval_nodes.specs.Represents.{KeepsFew};
ghost use Rattle.eval_nodes.specs.Runners.{IsSoundOf};
ghost use Rattle.runner_snapshot.specs.Plain.{runners_of};
ghost use Rattle.restored_nodes.specs.Cells.{CanBePutBack};
ghost use Rattle.restored_nodes.specs.Restored.{IsRestoredFed};
ghost use Rattle.restored_nodes.specs.Rooms.{AreFewFed, HasRoom};

use crate::nodes::restored_progress;
use compose_eval::Instances;
use eval_nodes::Progress;
use new_nodes::new_node;
use query_model::Query;
use runner_snapshot::Runners;
use std::alloc::{AllocError, Global};

/// The runners that are fed, in a list with so much room. None is idle.
#[cycle(restore)]
pub(crate) fn live_runners(
    alloc: Global,
    query: &Query,
    room: u32,
    runners: &Runners,
) -> Result<Instances<Progress>, AllocError>
    requires query { CanBePutBack None (plain_of query.now.shape) }
    requires few { AreFewFed (HasRoom (plain_of query.now.shape)) room (runners_of runners.now) }
    ensures live { IfOk result (λ held. AllZip (IsRestoredFed seen_of (plain_of query.now.shape))
        (runners_of runners.now) held.live) }
    ensures idle { IfOk result (λ held. held.idle ≡ []) }
    ensures room { IfOk result (λ held. held.room ≡ room) }
{
    let mut held = Instances::new(alloc, room)?;
    'fed: for i in 0..runners.len() {
        let (outer, dump) = runners.get(i);
        let runner = restored_progress(alloc, query, None, dump)?;
        held.put(outer, runner);
    }
    Ok(held)
}

/// A new runner rests in each place that is left.
pub(crate) fn rest_in_other_places(
    alloc: Global,
    query: &Query,
    held: &mut Instances<Progress>,
) -> Result<(), AllocError>
    requires query { CanBePutBack None (plain_of query.now.shape) }
    requires none { held.old.idle ≡ [] }
    ensures full { OnOk result (length held.new.live + length held.new.idle ≡ held.new.room) }
    ensures same { (held.new.live ≡ held.old.live) × (held.new.room ≡ held.old.room) }
    ensures sound { OnOk result ((columns : List Column)
        → AllByRecursion (IsSoundOf seen_of columns (plain_of query.now.shape)) held.new.idle) }
    ensures few { OnOk result (AllByRecursion (KeepsFew seen_of
        (stored_in seen_of (plain_of query.now.shape)) (slots_of (plain_of query.now.shape)))
        held.new.idle) }
{
    'idle: for _ in held.len()..held.room() as usize {
        let node = new_node(alloc, query, None)?;
        held.rest(Progress {
            node,
            position: 0,
            answer: None,
        });
    }
    Ok(())
}
