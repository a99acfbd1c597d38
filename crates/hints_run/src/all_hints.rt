//! All that there is to report of a query.
ghost use Rattle.std.specs.Prelude.{IfOk};
ghost use Rattle.hints_run.specs.Hints.{AreHints};

use crate::early_section::push_early;
use crate::ending_section::push_ending;
use crate::keyless_section::push_keyless;
use language_base::Bytes;
use query_model::Checked;
use std::alloc::{AllocError, Global};

/// A section for each kind of thing that there is to report of the query with this text.
pub fn hints_text(alloc: Global, text: &[u8], checked: &Checked) -> Result<Bytes, AllocError>
    ensures { IfOk result (AreHints text.now checked.now) }
{
    let mut shown = Vec::new(alloc);
    push_ending(alloc, checked, &mut shown)?;
    push_keyless(alloc, text, checked, &mut shown)?;
    push_early(alloc, text, checked, &mut shown)?;
    Ok(Bytes::from_vec(shown))
}
