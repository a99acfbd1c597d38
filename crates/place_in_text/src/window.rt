//! The part of a line that is shown.
ghost use Rattle.std.specs.Prelude.{◌≡◌};
ghost use Rattle.place_in_text.specs.Windows.{shown_before, shown_from};

use crate::line::{before_place, from_place};

/// The most bytes of a line that are shown.
const MAX_SHOWN: usize = 100;

/// What is shown of a line: the bytes before the place, and those from it on.
#[derive(Clone, Copy)]
pub(crate) struct Window<'a> {
    pub(crate) before: &'a [u8],
    pub(crate) from: &'a [u8],
}

pub(crate) fn window_at(text: &[u8], place: usize) -> Window<'_>
    ensures before { result.before.now ≡ shown_before text.now place }
    ensures from { result.from.now ≡ shown_from text.now place }
{
    let before = before_place(text, place);
    let from = from_place(text, place);
    let count = before
        .len()
        .min((MAX_SHOWN / 2).max(MAX_SHOWN.saturating_sub(from.len())));
    Window {
        before: &before[before.len() - count..],
        from: &from[..from.len().min(MAX_SHOWN - count)],
    }
}
