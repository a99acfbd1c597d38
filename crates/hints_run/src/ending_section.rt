//! The section that reports after which items a query has no value any more.
ghost use Rattle.std.specs.Prelude.{◌≡◌, ◌++◌, OnOk};
ghost use Rattle.hints_run.specs.EndingSections.{IsEndingSection, ending_head, ending_text};
ghost use Rattle.hints_run.specs.Sections.{Adds};

use crate::shown_lines::push_lines;
use dead_example::{Ending, ending_of};
use language_base::Bytes;
use query_model::Checked;
use std::alloc::{AllocError, Global};

/// Appends the section.
pub fn push_ending(alloc: Global, checked: &Checked, shown: &mut Vec<u8>) -> Result<(), AllocError>
    ensures { OnOk result
        (Adds (IsEndingSection checked.now) shown.old.items shown.new.items) }
{
    let ending = ending_of(alloc, checked)?;
    push_text(&ending, shown)
}

#[tactic(auto, unfolding(crate::specs::EndingSections::ending_text))]
fn push_text(ending: &Ending, shown: &mut Vec<u8>) -> Result<(), AllocError>
    ensures { OnOk result (shown.new.items ≡ shown.old.items ++ ending_text ending.now) }
{
    match ending {
        Ending::Lines(lines) => {
            shown.extend_from_slice(head_of(lines).as_bytes())?;
            push_lines(lines, shown)
        }
        Ending::Never => shown.extend_from_slice(
            b"After all items further ones fit the rate of this query.\n",
        ),
        Ending::Unknown => Ok(()),
    }
}

#[tactic(auto, unfolding(crate::specs::EndingSections::ending_head))]
fn head_of(lines: &[Bytes]) -> &'static str
    ensures { result.now ≡ ending_head lines.now }
{
    match lines {
        [] => "No items lead to a value.\n",
        _ => "No further items lead to a value after these:\n",
    }
}
