//! The rewriting of a query that keeps the rules.
ghost use Rattle.std.specs.Prelude.{◌≡◌, ◌≤◌, IfOk};
ghost use Rattle.query_model.specs.Bounds.{slots_of};
ghost use Rattle.query_model.specs.Queries.{plain_of};
ghost use Rattle.query_rewrite.specs.Levels.{HasFewLevels};
ghost use Rattle.query_rewrite.specs.Meanings.{MeanTheSame};
ghost use Rattle.query_rewrite.specs.Plainness.{IsPlain};
ghost use Rattle.query_rewrite.specs.Rewriting.{Rewrites};

use crate::nodes::rewritten;
use query_model::Checked;
use std::alloc::{AllocError, Global};

/// A query on the same stream with the same values, to which no rule applies any more.
pub fn rewrite(checked: &Checked, alloc: Global) -> Result<Checked, AllocError>
    ensures stream { IfOk result (λ made. made.layout ≡ checked.now.layout) }
    ensures rules { IfOk result (λ made.
        Rewrites (plain_of checked.now.main.shape) (plain_of made.main.shape)) }
    ensures plain { IfOk result (λ made. IsPlain (plain_of made.main.shape)) }
    ensures values { IfOk result (λ made. MeanTheSame checked.now.layout.columns
        (plain_of checked.now.main.shape) (plain_of made.main.shape)) }
    ensures slots { IfOk result (λ made.
        slots_of (plain_of made.main.shape) ≤ slots_of (plain_of checked.now.main.shape)) }
    ensures levels { HasFewLevels (plain_of checked.now.main.shape)
        → IfOk result (λ made. HasFewLevels (plain_of made.main.shape)) }
{
    let main = rewritten(checked.main(), alloc)?;
    let schema = checked.schema().try_copy(alloc)?;
    Ok(Checked::new(schema, main))
}
