//! The text of a query that is rewritten.
ghost use Rattle.std.specs.Prelude.{IfOk};
ghost use Rattle.query_model.specs.Monitors.{monitor_of};
ghost use Rattle.sqre_run.specs.Rewritten.{IsRewrittenText};

use language_base::Bytes;
use query_model::Checked;
use query_rewrite::rewrite;
use query_text::text_of;
use std::alloc::{AllocError, Global};

/// The text of the query by the rules that keep its values.
pub fn rewritten_text(alloc: Global, checked: &Checked) -> Result<Bytes, AllocError>
    ensures { IfOk result (IsRewrittenText (monitor_of checked.now)) }
{
    let rewritten = rewrite(checked, alloc)?;
    text_of(&rewritten, alloc)
}
