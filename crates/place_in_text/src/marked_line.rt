//! A line with the marks under it.
ghost use Rattle.std.specs.Prelude.{◌≡◌, ◌++◌, OnOk};
ghost use Rattle.place_in_text.specs.Windows.{marked_line, marks_line, shown_line, window_lines};

use crate::shown_bytes::{push_shown, push_times};
use crate::window::window_at;
use std::alloc::{AllocError, Global};

/// Appends two lines: the line of the place `from`, or the part of it that is shown, and marks
/// under the bytes from there up to the place `to`. There is at least one mark.
#[tactic(auto, unfolding(crate::specs::Windows::marked_line))]
pub fn push_marked_line(
    alloc: Global,
    text: &[u8],
    from: usize,
    to: usize,
    shown: &mut Vec<u8>,
) -> Result<(), AllocError>
    ensures { OnOk result (shown.new.items ≡ shown.old.items ++ marked_line text.now from to) }
{
    let window = window_at(text, from);
    push_window(
        alloc,
        window.before,
        window.from,
        to.saturating_sub(from),
        shown,
    )
}

#[tactic(auto, unfolding(crate::specs::Windows::window_lines))]
fn push_window(
    alloc: Global,
    before: &[u8],
    from: &[u8],
    width: usize,
    shown: &mut Vec<u8>,
) -> Result<(), AllocError>
    ensures { OnOk result (shown.new.items
        ≡ shown.old.items ++ window_lines before.now from.now width) }
{
    push_line(before, from, shown)?;
    let count = width.min(from.len()).max(1);
    push_marks(alloc, before.len(), count, shown)
}

#[tactic(auto, unfolding(crate::specs::Windows::shown_line))]
fn push_line(before: &[u8], from: &[u8], shown: &mut Vec<u8>) -> Result<(), AllocError>
    ensures { OnOk result (shown.new.items ≡ shown.old.items ++ shown_line before.now from.now) }
{
    shown.extend_from_slice(b"    ")?;
    push_shown(before, shown)?;
    push_shown(from, shown)?;
    shown.extend_from_slice(b"\n")
}

#[tactic(auto, unfolding(crate::specs::Windows::marks_line))]
fn push_marks(
    alloc: Global,
    before: usize,
    count: usize,
    shown: &mut Vec<u8>,
) -> Result<(), AllocError>
    ensures { OnOk result (shown.new.items ≡ shown.old.items ++ marks_line before count) }
{
    shown.extend_from_slice(b"    ")?;
    push_times(alloc, b' ', before, shown)?;
    push_times(alloc, b'^', count, shown)?;
    shown.extend_from_slice(b"\n")
}
