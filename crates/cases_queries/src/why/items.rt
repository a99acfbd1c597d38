//! The items of changed examples.
ghost use Rattle.std.specs.Prelude.{◌≡◌, ◌<◌, ◌+◌, ◌++◌, IfOk, drop, length, take};

use item_schema::Item;
use std::alloc::{AllocError, Global};

pub(crate) fn copied(alloc: Global, items: &[Item]) -> Result<Vec<Item<'static>>, AllocError>
    ensures { IfOk result (λ copy. copy.items ≡ items.now) }
{
    let mut copy = Vec::with_capacity(alloc, items.len())?;
    'items: for item in items {
        copy.push(item.try_copy(alloc)?)?;
    }
    Ok(copy)
}

/// All items but the one at the place.
pub(crate) fn without(
    alloc: Global,
    items: &[Item],
    place: usize,
) -> Result<Vec<Item<'static>>, AllocError>
    requires { place < length items.now }
    ensures { IfOk result (λ left.
        left.items ≡ take place items.now ++ drop (place + 1) items.now) }
{
    let mut left = copied(alloc, &items[..place])?;
    let mut after = copied(alloc, &items[place + 1..])?;
    left.append(&mut after)?;
    Ok(left)
}
