//! The section that reports a value on no items that is read first.
ghost use Rattle.std.specs.Prelude.{◌≡◌, ◌++◌, OnOk};
ghost use Rattle.hints_run.specs.EarlySections.{IsEarlySection, early_text};
ghost use Rattle.hints_run.specs.Sections.{Adds};

use crate::marked_place::push_marked;
use early_values::{EarlyValue, early_value};
use query_model::Checked;
use report_writer::push_answer;
use std::alloc::{AllocError, Global};

/// Appends the section.
pub fn push_early(
    alloc: Global,
    text: &[u8],
    checked: &Checked,
    shown: &mut Vec<u8>,
) -> Result<(), AllocError>
    ensures { OnOk result
        (Adds (IsEarlySection text.now checked.now) shown.old.items shown.new.items) }
{
    match early_value(alloc, checked)? {
        Some(early) => push_text(alloc, text, &early, shown),
        None => Ok(()),
    }
}

#[tactic(auto, unfolding(crate::specs::EarlySections::early_text))]
fn push_text(
    alloc: Global,
    text: &[u8],
    early: &EarlyValue,
    shown: &mut Vec<u8>,
) -> Result<(), AllocError>
    ensures { OnOk result (shown.new.items ≡ shown.old.items ++ early_text text.now early.now) }
{
    shown.extend_from_slice(b"This has a value on no items, which is read before all others:\n")?;
    push_marked(alloc, text, early.span, shown)?;
    shown.extend_from_slice(b"    ")?;
    push_answer(Some(&early.value), shown)
}
