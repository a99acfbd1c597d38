//! The cuts of changed examples.
ghost use Rattle.std.specs.Prelude.{◌<◌, length};

use crate::why::readings::Readings;
use std::alloc::{AllocError, Global};

/// All the ways to move one of the cuts by an item. If words have more than two readings, only the
/// first or the last cut is moved.
pub(crate) fn moved(
    alloc: Global,
    cuts: &[u32],
    readings: Readings,
) -> Result<Vec<Vec<u32>>, AllocError> {
    let mut all = Vec::new(alloc);
    for place in 0..cuts.len() {
        let is_end = place == 0 || cuts.len() - place == 1;
        if is_end || readings == Readings::Two {
            push_moved(alloc, cuts, place, &mut all)?;
        }
    }
    Ok(all)
}

/// Adds the cuts with the one at the place moved on by an item, and moved back by one.
fn push_moved(
    alloc: Global,
    cuts: &[u32],
    place: usize,
    all: &mut Vec<Vec<u32>>,
) -> Result<(), AllocError>
    requires { place < length cuts.now }
{
    let cut = cuts[place];
    all.push(with_cut(alloc, cuts, place, cut.saturating_add(1))?)?;
    if cut > 0 {
        all.push(with_cut(alloc, cuts, place, cut - 1)?)?;
    }
    Ok(())
}

fn with_cut(alloc: Global, cuts: &[u32], place: usize, cut: u32) -> Result<Vec<u32>, AllocError> {
    let mut changed = Vec::from_slice(alloc, cuts)?;
    if let Some(old) = changed.get_mut(place) {
        *old = cut;
    }
    Ok(changed)
}

/// The cuts for the word without the item at the place.
pub(crate) fn moved_up(alloc: Global, cuts: &[u32], place: usize) -> Result<Vec<u32>, AllocError> {
    let mut moved = Vec::new(alloc);
    for &cut in cuts {
        moved.push(if cut as usize > place { cut - 1 } else { cut })?;
    }
    Ok(moved)
}
