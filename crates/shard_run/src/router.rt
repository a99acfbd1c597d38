//! The lines of a stream on their way to shards.
ghost use Rattle.std.specs.Prelude.{◌≡◌, ◌<◌, true, false, IfOk, OnOk};
ghost use Rattle.io_edge.specs.Lines.{long, text};
ghost use Rattle.key_routes.specs.Routes.{route_of};
ghost use Rattle.predicates.specs.Plain.{plain_of};
ghost use Rattle.shard_run.specs.Routers.{read_by, routing_of};
ghost use Rattle.shard_run.specs.Routes.{line_route};

use crate::route_text::text_in;
use item_schema::{Item, Schema};
use key_routes::{Route, Sharding};
use line_reader::{Cause, ItemStop, Skip, read_item};
use std::alloc::{AllocError, Global};
use stream_run::Replier;

/// How a line that is too long is left out.
const TOO_LONG: Skip = Skip {
    cause: Cause::Long,
    column: 0,
};

/// Where a line goes.
#[derive(Clone, Copy, Debug, PartialEq, Eq)]
pub enum LineRoute {
    /// Nowhere: it is the header, or empty.
    Nowhere,
    /// Nowhere: it gives no item.
    Skipped(Skip),
    /// Where its item goes.
    Sent(Route),
}

/// How the items lie in lines, how their keys are divided, and whether the next line is the header.
#[derive(Drop)]
pub struct Router<'q> {
    schema: &'q Schema,
    sharding: Sharding<'q>,
    awaits_header: bool,
}

impl<'q> Router<'q> {
    pub fn new(schema: &'q Schema, sharding: Sharding<'q>) -> Router<'q>
        ensures { result ≡ record {
          schema = schema.entry;
          sharding = sharding.entry;
          awaits_header = schema.now.has_header;
        } }
    {
        Router {
            schema,
            sharding,
            awaits_header: schema.has_header(),
        }
    }

    /// Where a line without its line end goes.
    pub fn line(&mut self, alloc: Global, line: &[u8]) -> Result<LineRoute, AllocError>
        requires { 0 < self.old.sharding.shards }
        ensures route { IfOk result (λ route. route
            ≡ line_route (routing_of self.old) (read_by self.old (text line.now))) }
        ensures after { OnOk result (self.new ≡ record self.old { awaits_header = false }) }
    {
        if self.awaits_header || line.is_empty() {
            self.awaits_header = false;
            return Ok(LineRoute::Nowhere);
        }
        match read_item(alloc, self.schema, line) {
            Ok(item) => sent(alloc, &self.sharding, &item),
            Err(ItemStop::Skip(skip)) => Ok(LineRoute::Skipped(skip)),
            Err(ItemStop::Memory) => Err(AllocError),
        }
    }

    /// Where a line goes that is too long.
    pub fn long_line(&mut self) -> LineRoute
        ensures route { result ≡ line_route (routing_of self.old) (read_by self.old long) }
        ensures after { self.new ≡ record self.old { awaits_header = false } }
    {
        if self.awaits_header {
            self.awaits_header = false;
            return LineRoute::Nowhere;
        }
        LineRoute::Skipped(TOO_LONG)
    }
}

impl Replier for Router<'_> {
    ghost use Rattle.std.specs.Prelude.{◌<◌};
    ghost use Rattle.shard_run.specs.RouterLaws.{routes_nothing, same_router};
    ghost use Rattle.shard_run.specs.Routers.{SaysRoutes, StandsAfter};

    ghost stands = { StandsAfter };

    ghost says = { SaysRoutes };

    ghost ready = { λ router. 0 < router.sharding.shards };

    ghost position = { λ router. 0 };

    ghost same = { λ first now. Unit {0} };

    fn reply<'b>(
        &mut self,
        alloc: Global,
        line: &[u8],
        buffer: &'b mut Vec<u8>,
    ) -> Result<&'b [u8], AllocError> {
        let route = self.line(alloc, line)?;
        text_in(route, buffer)
    }

    fn reply_to_long<'b>(&mut self, buffer: &'b mut Vec<u8>) -> Result<&'b [u8], AllocError> {
        let route = self.long_line();
        text_in(route, buffer)
    }

    ghost begins = { same_router };

    ghost says_nothing = { routes_nothing };

    ghost same_before = { λ first. tt };

    ghost same_after = { λ first now next before after. tt };
}

// Where the item of a line goes.
fn sent(alloc: Global, sharding: &Sharding<'_>, item: &Item) -> Result<LineRoute, AllocError>
    requires { 0 < sharding.now.shards }
    ensures { IfOk result (λ route. route ≡ LineRoute.Sent (route_of sharding.now.columns.now
        (plain_of sharding.now.sync.now) sharding.now.shards item.now)) }
{
    let route = sharding.route(alloc, item)?;
    Ok(LineRoute::Sent(route))
}
