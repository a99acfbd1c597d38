//! What is done with a query that is accepted.
ghost use Rattle.std.specs.Prelude.{◌≡◌, ℕ, List, Some, None, IfSome, MatchOption};
ghost use Rattle.io_edge.specs.Faults.{LeavesFlushed, ReportsFault};
ghost use Rattle.key_shards.specs.Collections.{collection_in};
ghost use Rattle.query_model.specs.Monitors.{monitor_of};
ghost use Rattle.query_model.specs.Queries.{plain_of};
ghost use Rattle.stream_run.specs.Outside.{outside};
ghost use Rattle.shard_run.specs.Call.{LeavesItems, Outcome};
ghost use Rattle.shard_run.specs.Commands.{HasShards};
ghost use Rattle.shard_run.specs.Routers.{IsRouterFor};
ghost use Rattle.shard_run.specs.Verdicts.{IsAccepted};

use crate::command::Command;
use crate::pieces::piece_reply;
use crate::reply::{whole, write_reply};
use crate::router::Router;
use io_edge::{Sink, Source};
use key_routes::Sharding;
use query_model::{Checked, Shape};
use std::alloc::Global;
use stream_run::{Status, reply_to_lines};

/// Carries a command out. Only `route` reads the items.
pub fn carry_out<S: Source, W: Sink>(
    alloc: Global,
    command: Command,
    checked: &Checked,
    items: &mut S,
    out: &mut W,
) -> Status
    requires { HasShards command }
    ensures outcome { let at = outside S.left S.ends W.taken in (text : List ℕ)
        → IsAccepted text (monitor_of checked.now) checked.now.main.span
        → Outcome command text result (at items.old out.old) (at items.new out.new) }
    ensures items { LeavesItems (Some command) items.old items.new }
    ensures flushed { LeavesFlushed result Status.SinkFault W.held out.old out.new }
    ensures item_faults { ReportsFault result Status.ItemFault S.faults items.old items.new }
    ensures sink_faults { ReportsFault result Status.SinkFault W.faults out.old out.new }
{
    match command {
        Command::Text(piece) => write_reply(piece_reply(alloc, piece, checked), out),
        Command::Route { shards } => route(alloc, checked, shards, items, out),
    }
}

// Writes where each line goes, if the keys can be divided.
fn route<S: Source, W: Sink>(
    alloc: Global,
    checked: &Checked,
    shards: u32,
    items: &mut S,
    out: &mut W,
) -> Status
    requires { HasShards (Command.Route shards) }
    ensures outcome { let at = outside S.left S.ends W.taken in (text : List ℕ)
        → IsAccepted text (monitor_of checked.now) checked.now.main.span
        → Outcome (Command.Route shards) text result (at items.old out.old) (at items.new out.new) }
    ensures flushed { LeavesFlushed result Status.SinkFault W.held out.old out.new }
    ensures item_faults { ReportsFault result Status.ItemFault S.faults items.old items.new }
    ensures sink_faults { ReportsFault result Status.SinkFault W.faults out.old out.new }
{
    match router_for(checked, shards) {
        Some(mut router) => reply_to_lines(alloc, &mut router, items, out),
        None => write_reply(whole(alloc, checked.main().span), out),
    }
}

// The router for the keys of the main query, if that is a collect.
fn router_for(checked: &Checked, shards: u32) -> Option<Router<'_>>
    ensures router { MatchOption result (collection_in (plain_of checked.now.main.shape) ≡ None)
        (IsRouterFor (monitor_of checked.now) shards) }
    ensures shards { IfSome result (λ router. router.sharding.shards ≡ shards) }
{
    let main = checked.main();
    let Shape::Collect(columns, sync, _, _) = &main.shape else {
        return None;
    };
    let columns = columns.as_slice();
    let sharding = Sharding {
        columns,
        sync,
        shards,
    };
    Some(Router::new(checked.schema(), sharding))
}
