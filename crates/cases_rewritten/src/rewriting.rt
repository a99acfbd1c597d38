//! Texts of rewritten queries.

use io_edge::SteadySource;
use language_base::Bytes;
use query_compiler::compile;
use query_model::Checked;
use query_rewrite::rewrite;
use query_text::text_of;
use std::alloc::{AllocError, Global};

/// The text of what the query of the text is rewritten as, and no bytes if the text is refused.
pub(crate) fn rewritten(alloc: Global, query: &[u8]) -> Result<Bytes, AllocError> {
    let mut source = SteadySource::new(alloc, query)?;
    match compile(alloc, &mut source) {
        Ok(checked) => text_after(&checked, alloc),
        Err(_) => Ok(Bytes::from_vec(Vec::new(alloc))),
    }
}

fn text_after(checked: &Checked, alloc: Global) -> Result<Bytes, AllocError> {
    let made = rewrite(checked, alloc)?;
    text_of(&made, alloc)
}
