//! How the runner follows a word.

use crate::KeptRunner;
use item_schema::Item;
use query_model::Follower;
use std::alloc::{AllocError, Global};
use value_ops::Value;

impl Follower for KeptRunner<'_> {
    ghost use Rattle.kept_runner.specs.Following.{columns_of, Follows, is_lost, IsSoundly, kept_of};
    ghost use Rattle.kept_runner.specs.Following.{position_of, query_of};
    ghost use Rattle.kept_runner.specs.Laws.{follows_ends, follows_found, follows_sound};

    ghost query = { query_of };

    ghost columns = { columns_of };

    ghost position = { position_of };

    ghost lost = { is_lost };

    ghost follows = { Follows };

    ghost sound = { IsSoundly };

    ghost kept = { kept_of };

    fn step(&mut self, alloc: Global, item: &Item) -> Result<(), AllocError> {
        self.runner.step(alloc, item)
    }

    fn answer(&self) -> Option<&Value> {
        self.runner.answer()
    }

    fn try_copy(&self, alloc: Global) -> Result<Self, AllocError> {
        let runner = self.runner.try_copy(alloc)?;
        Ok(KeptRunner { runner })
    }

    fn reset(&mut self, alloc: Global) -> Result<(), AllocError> {
        self.runner.reset(alloc)
    }

    fn failed(&self) -> bool {
        self.runner.failed()
    }

    fn stored(&self) -> u64 {
        self.runner.stored()
    }

    ghost lost_follows = { follows_found };

    ghost at_end = { follows_ends };

    ghost follows_sound = { follows_sound };
}
