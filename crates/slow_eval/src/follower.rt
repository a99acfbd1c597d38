//! The engine as a follower.
ghost use Rattle.std.specs.Prelude.{◌≡◌, ◌-◌, ◌^◌, min, IfOk};

use crate::Slow;
use item_schema::Item;
use query_model::Follower;
use std::alloc::{AllocError, Global};
use value_ops::{Value, size_of_answer};

impl Follower for Slow<'_> {
    ghost use Rattle.slow_eval.specs.Following.{columns_of, Follows, is_lost, IsSound, kept_of};
    ghost use Rattle.slow_eval.specs.Following.{position_of, query_of};
    ghost use Rattle.slow_eval.specs.Laws.{follows_ends, follows_found, follows_sound};

    ghost query = { query_of };

    ghost columns = { columns_of };

    ghost position = { position_of };

    ghost lost = { is_lost };

    ghost follows = { Follows };

    ghost sound = { IsSound };

    ghost kept = { kept_of };

    fn step(&mut self, alloc: Global, item: &Item) -> Result<(), AllocError> {
        self.failed = true;
        self.items.push(item.try_copy(alloc)?)?;
        self.search(alloc)
    }

    fn answer(&self) -> Option<&Value> {
        if self.failed {
            return None;
        }
        self.answer.as_ref()
    }

    fn try_copy(&self, alloc: Global) -> Result<Self, AllocError> {
        let items = copied(alloc, &self.items)?;
        let answer = match &self.answer {
            Some(value) => Some(value.try_copy(alloc)?),
            None => None,
        };
        Ok(Slow {
            checked: self.checked,
            items,
            answer,
            failed: self.failed,
        })
    }

    fn reset(&mut self, alloc: Global) -> Result<(), AllocError> {
        self.items.clear();
        self.search(alloc)
    }

    fn failed(&self) -> bool {
        self.failed
    }

    fn stored(&self) -> u64 {
        (self.items.len() as u64).saturating_add(size_of_answer(&self.answer))
    }

    ghost lost_follows = { follows_found };

    ghost at_end = { follows_ends };

    ghost follows_sound = { follows_sound };
}

fn copied(alloc: Global, items: &[Item]) -> Result<Vec<Item<'static>>, AllocError>
    ensures { IfOk result (λ copy. copy.items ≡ items.now) }
{
    let mut copy = Vec::with_capacity(alloc, items.len())?;
    'items: for item in items {
        copy.push(item.try_copy(alloc)?)?;
    }
    Ok(copy)
}
