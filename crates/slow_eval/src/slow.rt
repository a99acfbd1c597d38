//! The state of the engine: the query and all items of the word so far.
ghost use Rattle.query_model.specs.Queries.{plain_of};

use crate::search::answer_on;
use item_schema::Item;
use query_model::{Checked, Follower};
use std::alloc::{AllocError, Global};
use value_ops::Value;

/// Keeps the whole word and the value of the query on it. If the engine was out of memory, `failed`
/// is set, and the value is not known.
#[derive(Drop)]
pub struct Slow<'q> {
    pub(crate) checked: &'q Checked,
    pub(crate) items: Vec<Item<'static>>,
    pub(crate) answer: Option<Value>,
    pub(crate) failed: bool,
}

impl<'q> Slow<'q> {
    ghost use Rattle.std.specs.Prelude.{◌≡◌, [], true, false, IfOk, OnOk, OnErr};
    ghost use Rattle.slow_eval.specs.Following.{columns_of, Follows, is_lost, IsSound, position_of};
    ghost use Rattle.slow_eval.specs.Following.{query_of};

    /// The engine on the empty word.
    pub fn new(alloc: Global, checked: &'q Checked) -> Result<Slow<'q>, AllocError>
        ensures word { IfOk result (λ slow. Follows slow []) }
        ensures position { IfOk result (λ slow. position_of slow ≡ 0) }
        ensures found { IfOk result (λ slow. is_lost slow ≡ false) }
        ensures query { IfOk result (λ slow. query_of slow ≡ plain_of checked.now.main.shape) }
        ensures columns { IfOk result (λ slow. columns_of slow ≡ checked.now.layout.columns) }
    {
        let mut slow = Slow {
            checked,
            items: Vec::new(alloc),
            answer: None,
            failed: true,
        };
        slow.reset(alloc)?;
        Ok(slow)
    }

    /// Searches the answer on all items. If it is out of memory, the answer is lost.
    pub(crate) fn search(&mut self, alloc: Global) -> Result<(), AllocError>
        requires sound { IsSound self.old }
        ensures ok { OnOk result (Follows self.new self.old.items.items) }
        ensures err { OnErr result (is_lost self.new ≡ true) }
        ensures sound { IsSound self.new }
        ensures items { self.new.items.items ≡ self.old.items.items }
        ensures same { self.new.checked ≡ self.old.checked }
    {
        self.failed = true;
        self.answer = None;
        self.answer = answer_on(alloc, self.checked.main(), &self.items)?;
        self.failed = false;
        Ok(())
    }
}
