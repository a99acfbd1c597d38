//! The runner of a checked query, which can be kept.
ghost use Rattle.std.specs.Prelude.{◌≡◌};
ghost use Rattle.query_model.specs.Queries.{plain_of};

use eval_runner::Runner;
use query_model::Checked;
use std::alloc::{AllocError, Global};

/// Follows a word item by item, as its runner does.
#[derive(Drop)]
pub struct KeptRunner<'q> {
    pub(crate) runner: Runner<'q>,
}

impl<'q> KeptRunner<'q> {
    ghost use Rattle.std.specs.Prelude.{[], false, IfOk};
    ghost use Rattle.kept_runner.specs.Following.{columns_of, Follows, is_lost, position_of};
    ghost use Rattle.kept_runner.specs.Following.{query_of};

    /// A runner that follows the empty word.
    pub fn new(alloc: Global, checked: &'q Checked) -> Result<KeptRunner<'q>, AllocError>
        ensures word { IfOk result (λ runner. Follows runner []) }
        ensures position { IfOk result (λ runner. position_of runner ≡ 0) }
        ensures found { IfOk result (λ runner. is_lost runner ≡ false) }
        ensures query { IfOk result (λ runner. query_of runner ≡ plain_of checked.now.main.shape) }
        ensures columns { IfOk result (λ runner. columns_of runner ≡ checked.now.layout.columns) }
    {
        let runner = Runner::new(alloc, checked)?;
        Ok(KeptRunner { runner })
    }
}
