//! How the runner follows a word.

use crate::Runner;
use crate::initial_state::open;
use eval_nodes::Progress;
use eval_tree::carry;
use item_schema::Item;
use new_nodes::has_no_collect;
use node_copies::copy_of_runner;
use node_counts::size_of_runner;
use query_model::Follower;
use std::alloc::{AllocError, Global};
use std::mem::replace;
use value_ops::Value;

impl Follower for Runner<'_> {
    ghost use Rattle.std.specs.Prelude.{◌≡◌, ◌≤◌, ◌+◌, ◌-◌, ◌*◌, ◌^◌, min, false, true, [], IsOk};
    ghost use Rattle.std.specs.Prelude.{OnErr, OnOk};
    ghost use Rattle.memory_bound.specs.KeysMet.{keys_met};
    ghost use Rattle.query_model.specs.Bounds.{slots_of};
    ghost use Rattle.query_model.specs.Following.{Carries, FitsNext};
    ghost use Rattle.query_model.specs.Rules.{HasNoCollect};
    ghost use Rattle.rate_expr.specs.Words.{Word};
    ghost use Rattle.eval_runner.specs.Following.{columns_of, Follows, is_lost, IsSoundly, kept_of};
    ghost use Rattle.eval_runner.specs.Following.{position_of, query_of};
    ghost use Rattle.eval_runner.specs.Laws.{follows_ends, follows_found, follows_sound};

    ghost query = { query_of };

    ghost columns = { columns_of };

    ghost position = { position_of };

    ghost lost = { is_lost };

    ghost follows = { Follows };

    ghost sound = { IsSoundly };

    ghost kept = { kept_of };

    fn step(&mut self, alloc: Global, item: &Item) -> Result<(), AllocError>
        requires sound { IsSoundly self.old }
        requires found { is_lost self.old ≡ false }
        requires fits { FitsNext (columns_of self.old) (query_of self.old) (position_of self.old)
            item.now }
        ensures ok { OnOk result (Carries Follows self.old item.now self.new) }
        ensures position { OnOk result (position_of self.new ≡ position_of self.old + 1) }
        ensures found { OnOk result (is_lost self.new ≡ false) }
        ensures err { OnErr result (is_lost self.new ≡ true) }
        ensures sound { IsSoundly self.new }
        ensures same { (query_of self.new ≡ query_of self.old)
            × (columns_of self.new ≡ columns_of self.old) }
        ensures no_memory { HasNoCollect (query_of self.old) → IsOk result }
    {
        self.failed = true;
        carry(self.checked.main(), &mut self.progress, alloc, item)?;
        self.failed = false;
        Ok(())
    }

    fn answer(&self) -> Option<&Value> {
        if self.failed {
            return None;
        }
        self.progress.answer.as_ref()
    }

    fn try_copy(&self, alloc: Global) -> Result<Self, AllocError> {
        let progress = copy_of_runner(self.checked.main(), &self.progress, alloc)?;
        Ok(Runner {
            checked: self.checked,
            progress,
            failed: self.failed,
        })
    }

    fn reset(&mut self, alloc: Global) -> Result<(), AllocError>
        requires sound { IsSoundly self.old }
        ensures ok { OnOk result (Follows self.new []) }
        ensures position { OnOk result (position_of self.new ≡ 0) }
        ensures found { OnOk result (is_lost self.new ≡ false) }
        ensures err { OnErr result (is_lost self.new ≡ true) }
        ensures sound { IsSoundly self.new }
        ensures same { (query_of self.new ≡ query_of self.old)
            × (columns_of self.new ≡ columns_of self.old) }
        ensures no_memory { HasNoCollect (query_of self.old) → IsOk result }
    {
        if has_no_collect(self.checked.main()) {
            self.begin_anew(alloc);
            return Ok(());
        }
        self.failed = true;
        let fresh = open(alloc, self.checked)?;
        drop(replace(&mut self.progress, fresh));
        self.failed = false;
        Ok(())
    }

    fn failed(&self) -> bool {
        self.failed
    }

    fn stored(&self) -> u64
        ensures count { result ≡ min (kept_of self.now) (2 ^ 64 - 1) }
        ensures few { (word : Word) → Follows self.now word
            → result ≤ slots_of (query_of self.now) * (1 + keys_met (query_of self.now) word) }
    {
        size_of_runner(self.checked.main(), &self.progress)
    }

    ghost lost_follows = { follows_found };

    ghost at_end = { follows_ends };

    ghost follows_sound = { follows_sound };
}
