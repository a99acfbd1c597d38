//! Which changed forms of an example are confirmed as examples too.
ghost use Rattle.ambiguity_example.specs.Asks.{ShareCells, columns_of};
ghost use Rattle.rate_expr.specs.Words.{IsWordOf};
ghost use Rattle.std.specs.Prelude.{◌<◌, length};

use crate::why::cut_changes::{moved, moved_up};
use crate::why::items::{copied, without};
use crate::why::readings::Readings;
use ambiguity_example::{Ask, Cuts, Example, confirm};
use item_schema::Item;
use std::alloc::{AllocError, Global};

/// Reports whether the example is confirmed, and which of its changed forms are.
pub(crate) fn push_confirmed(
    alloc: Global,
    ask: Ask<'_>,
    example: &Example,
    readings: Readings,
    text: &mut String,
) -> Result<(), AllocError>
    requires cells { ShareCells ask }
    requires items { IsWordOf (columns_of ask) example.now.items }
{
    text.push_str("; confirmed")?;
    if confirm(ask, example) {
        text.push_str(" as found")?;
    }
    push_with_these_cuts(alloc, ask, example, text)?;
    push_with_others(alloc, ask, example, readings, text)
}

/// Reports whether its items are confirmed with the cuts of the first reading for both readings,
/// and with the cuts of the two readings exchanged.
fn push_with_these_cuts(
    alloc: Global,
    ask: Ask<'_>,
    example: &Example,
    text: &mut String,
) -> Result<(), AllocError>
    requires cells { ShareCells ask }
    requires items { IsWordOf (columns_of ask) example.now.items }
{
    let items = example.items();
    let (first, second) = (example.first().as_slice(), example.second().as_slice());
    if is_example(alloc, ask, items, first, first)? {
        text.push_str(", with equal readings")?;
    }
    if is_example(alloc, ask, items, second, first)? {
        text.push_str(", with the readings swapped")?;
    }
    Ok(())
}

/// Reports whether it is confirmed with one cut moved by one item, and with one item left out.
fn push_with_others(
    alloc: Global,
    ask: Ask<'_>,
    example: &Example,
    readings: Readings,
    text: &mut String,
) -> Result<(), AllocError>
    requires cells { ShareCells ask }
    requires items { IsWordOf (columns_of ask) example.now.items }
{
    if is_example_with_first_moved(alloc, ask, example, readings)?
        || is_example_with_second_moved(alloc, ask, example, readings)?
    {
        text.push_str(", with a cut moved")?;
    }
    if is_example_with_less(alloc, ask, example)? {
        text.push_str(", with an item left out")?;
    }
    Ok(())
}

/// Whether moving some cut of the first reading by one item gives an example.
fn is_example_with_first_moved(
    alloc: Global,
    ask: Ask<'_>,
    example: &Example,
    readings: Readings,
) -> Result<bool, AllocError>
    requires cells { ShareCells ask }
    requires items { IsWordOf (columns_of ask) example.now.items }
{
    let (first, second) = (example.first().as_slice(), example.second().as_slice());
    let changed = moved(alloc, first, readings)?;
    for cuts in &changed {
        if is_example(alloc, ask, example.items(), cuts, second)? {
            return Ok(true);
        }
    }
    Ok(false)
}

/// Whether moving some cut of the second reading by one item gives one.
fn is_example_with_second_moved(
    alloc: Global,
    ask: Ask<'_>,
    example: &Example,
    readings: Readings,
) -> Result<bool, AllocError>
    requires cells { ShareCells ask }
    requires items { IsWordOf (columns_of ask) example.now.items }
{
    let (first, second) = (example.first().as_slice(), example.second().as_slice());
    let changed = moved(alloc, second, readings)?;
    for cuts in &changed {
        if is_example(alloc, ask, example.items(), first, cuts)? {
            return Ok(true);
        }
    }
    Ok(false)
}

/// Whether leaving some item out gives an example.
fn is_example_with_less(alloc: Global, ask: Ask<'_>, example: &Example) -> Result<bool, AllocError>
    requires cells { ShareCells ask }
    requires items { IsWordOf (columns_of ask) example.now.items }
{
    for place in 0..example.items().len() {
        if is_example_without(alloc, ask, example, place)? {
            return Ok(true);
        }
    }
    Ok(false)
}

/// Whether leaving out the item at the place gives an example, with the cuts as they were or with
/// those after the place one lower.
fn is_example_without(
    alloc: Global,
    ask: Ask<'_>,
    example: &Example,
    place: usize,
) -> Result<bool, AllocError>
    requires cells { ShareCells ask }
    requires items { IsWordOf (columns_of ask) example.now.items }
    requires place { place < length example.now.items }
{
    let (first, second) = (example.first().as_slice(), example.second().as_slice());
    let left = without(alloc, example.items(), place)?;
    Ok(
        is_example(alloc, ask, &left, first, second)?
            || is_example_moved_up(alloc, ask, &left, example, place)?,
    )
}

/// Whether the items are an example with the cuts of the given one, where those after the place are
/// one lower.
fn is_example_moved_up(
    alloc: Global,
    ask: Ask<'_>,
    items: &[Item],
    example: &Example,
    place: usize,
) -> Result<bool, AllocError>
    requires cells { ShareCells ask }
    requires items { IsWordOf (columns_of ask) items.now }
{
    let first = moved_up(alloc, example.first().as_slice(), place)?;
    let second = moved_up(alloc, example.second().as_slice(), place)?;
    is_example(alloc, ask, items, &first, &second)
}

/// Whether the items with these cuts are an example.
fn is_example(
    alloc: Global,
    ask: Ask<'_>,
    items: &[Item],
    first: &[u32],
    second: &[u32],
) -> Result<bool, AllocError>
    requires cells { ShareCells ask }
    requires items { IsWordOf (columns_of ask) items.now }
{
    let first = Cuts::new(alloc, first)?;
    let second = Cuts::new(alloc, second)?;
    let example = Example::new(copied(alloc, items)?, first, second);
    Ok(confirm(ask, &example))
}
