//! The section that reports a collect to which no key comes.
ghost use Rattle.std.specs.Prelude.{◌≡◌, ◌++◌, OnOk};
ghost use Rattle.hints_run.specs.KeylessSections.{IsKeylessSection, keyless_text};
ghost use Rattle.hints_run.specs.Sections.{Adds};

use crate::marked_place::push_marked;
use empty_tables::empty_table;
use language_base::Span;
use query_model::Checked;
use std::alloc::{AllocError, Global};

/// Appends the section.
pub fn push_keyless(
    alloc: Global,
    text: &[u8],
    checked: &Checked,
    shown: &mut Vec<u8>,
) -> Result<(), AllocError>
    ensures { OnOk result
        (Adds (IsKeylessSection text.now checked.now) shown.old.items shown.new.items) }
{
    match empty_table(alloc, checked)? {
        Some(span) => push_text(alloc, text, span, shown),
        None => Ok(()),
    }
}

#[tactic(auto, unfolding(crate::specs::KeylessSections::keyless_text))]
fn push_text(alloc: Global, text: &[u8], span: Span, shown: &mut Vec<u8>) -> Result<(), AllocError>
    ensures { OnOk result (shown.new.items ≡ shown.old.items ++ keyless_text text.now span) }
{
    shown.extend_from_slice(b"No key comes to this table, since each item is of every key:\n")?;
    push_marked(alloc, text, span, shown)
}
