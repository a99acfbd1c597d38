//! The runner of a checked query.
ghost use Rattle.std.specs.Prelude.{◌≡◌};
ghost use Rattle.query_model.specs.Queries.{plain_of};

use crate::initial_state::open;
use eval_nodes::Progress;
use eval_tree::renew;
use query_model::Checked;
use std::alloc::{AllocError, Global};

/// Follows a word item by item. What it keeps grows with the keys of the word, not with its length.
#[derive(Drop)]
pub struct Runner<'q> {
    pub(crate) checked: &'q Checked,
    pub(crate) progress: Progress,
    pub(crate) failed: bool,
}

impl<'q> Runner<'q> {
    ghost use Rattle.std.specs.Prelude.{[], false, IfOk};
    ghost use Rattle.query_model.specs.Rules.{HasNoCollect};
    ghost use Rattle.eval_runner.specs.Following.{columns_of, Follows, is_lost, IsSoundly};
    ghost use Rattle.eval_runner.specs.Following.{position_of, query_of};

    /// A runner that follows the empty word.
    pub fn new(alloc: Global, checked: &'q Checked) -> Result<Runner<'q>, AllocError>
        ensures word { IfOk result (λ runner. Follows runner []) }
        ensures position { IfOk result (λ runner. position_of runner ≡ 0) }
        ensures found { IfOk result (λ runner. is_lost runner ≡ false) }
        ensures query { IfOk result (λ runner. query_of runner ≡ plain_of checked.now.main.shape) }
        ensures columns { IfOk result (λ runner. columns_of runner ≡ checked.now.layout.columns) }
    {
        let progress = open(alloc, checked)?;
        Ok(Runner {
            checked,
            progress,
            failed: false,
        })
    }

    /// A runner that goes on from where another stood.
    pub fn resume(checked: &'q Checked, progress: Progress) -> Runner<'q>
        ensures { result
            ≡ record { checked = checked.entry; progress = progress; failed = false } }
    {
        Runner {
            checked,
            progress,
            failed: false,
        }
    }

    /// The query that it runs.
    pub fn checked(&self) -> &'q Checked
        ensures { result.now ≡ self.now.checked.now }
    {
        self.checked
    }

    /// How far it has come, if it is not lost.
    pub fn progress(&self) -> &Progress
        ensures { result.now ≡ self.now.progress }
    {
        &self.progress
    }

    /// Puts the runner back before the first item, in place.
    pub(crate) fn begin_anew(&mut self, alloc: Global)
        requires sound { IsSoundly self.old }
        requires no_collect { HasNoCollect (query_of self.old) }
        ensures word { Follows self.new [] }
        ensures query { query_of self.new ≡ query_of self.old }
        ensures columns { columns_of self.new ≡ columns_of self.old }
    {
        if renew(self.checked.main(), &mut self.progress, alloc).is_err() {
            unreachable!()
        }
        self.failed = false;
    }
}
