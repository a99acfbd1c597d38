//! The keys of a collect, divided among shards.
ghost use Rattle.std.specs.Prelude.{◌≡◌, ◌<◌, IfOk};
ghost use Rattle.predicates.specs.Plain.{plain_of};
ghost use Rattle.key_routes.specs.Routes.{IsWithin, route_of};

use crate::Route;
use crate::hash::shard_of_key;
use item_schema::Item;
use predicates::{Pred, holds};
use query_model::joined_key;
use std::alloc::{AllocError, Global};

/// The columns of the keys and the predicate of a collect, and how many shards there are.
#[derive(Clone, Copy)]
pub struct Sharding<'q> {
    pub columns: &'q [u32],
    pub sync: &'q Pred,
    pub shards: u32,
}

impl Sharding<'_> {
    /// Where the item goes.
    pub fn route(&self, alloc: Global, item: &Item) -> Result<Route, AllocError>
        requires { 0 < self.now.shards }
        ensures route { IfOk result (λ route. route ≡ route_of self.now.columns.now
            (plain_of self.now.sync.now) self.now.shards item.now) }
        ensures within { IfOk result (IsWithin self.now.shards) }
    {
        if holds(self.sync, item) {
            return Ok(Route::All);
        }
        let key = joined_key(alloc, self.columns, item)?;
        let home = shard_of_key(key.as_slice(), self.shards);
        Ok(Route::One(home))
    }
}
