//! Which items of a long word are drawn.
ghost use Rattle.std.specs.Prelude.{◌≡◌, ◌<◌, ◌^◌};
ghost use Rattle.drawn_example.specs.Drawings.{window_from, window_to};

/// How many items are drawn at each end of a long word, and on each side of the place where its
/// readings differ first.
pub(crate) const ENDS: usize = 4;

/// The places of the items that are drawn between those at the ends.
#[derive(Clone, Copy)]
pub(crate) struct Window {
    pub(crate) from: usize,
    pub(crate) to: usize,
}

/// The places around the one where the readings differ first, in a word of `items` items.
pub(crate) fn window_at(items: usize, place: usize) -> Window
    requires items { 16 < items }
    requires place { place < 2 ^ 32 }
    ensures from { result.from ≡ window_from items place }
    ensures to { result.to ≡ window_to items place }
{
    let last = items - ENDS;
    let from = place.saturating_sub(ENDS).max(ENDS).min(last);
    let to = (place + ENDS).min(last).max(from);
    Window { from, to }
}
