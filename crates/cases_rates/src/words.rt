//! All short words.

use item_schema::Item;
use predicate_cells::Cells;
use std::alloc::{AllocError, Global};

/// The most items of a word.
pub(crate) const ITEMS: u32 = 6;

/// All words of up to six items, with one item of each cell, shorter words first.
pub(crate) fn short_words(
    alloc: Global,
    cells: &Cells,
) -> Result<Vec<Vec<Item<'static>>>, AllocError> {
    let items = samples(alloc, cells)?;
    words_of(alloc, &items)
}

fn words_of(alloc: Global, items: &[Item]) -> Result<Vec<Vec<Item<'static>>>, AllocError> {
    let mut words = Vec::new(alloc);
    let mut longest = vec![in alloc; Vec::new(alloc)]?;
    for _ in 0..ITEMS {
        let longer = longer_words(alloc, &longest, items)?;
        words.append(&mut longest)?;
        longest = longer;
    }
    words.append(&mut longest)?;
    Ok(words)
}

fn samples(alloc: Global, cells: &Cells) -> Result<Vec<Item<'static>>, AllocError> {
    let mut items = Vec::new(alloc);
    for cell in 0..cells.count() {
        items.push(cells.sample(alloc, cell)?)?;
    }
    Ok(items)
}

/// Each of the words with each of the items after it.
fn longer_words(
    alloc: Global,
    words: &[Vec<Item<'static>>],
    items: &[Item],
) -> Result<Vec<Vec<Item<'static>>>, AllocError> {
    let mut longer = Vec::new(alloc);
    for word in words {
        for item in items {
            longer.push(with_item(alloc, word, item)?)?;
        }
    }
    Ok(longer)
}

fn with_item(alloc: Global, word: &[Item], item: &Item) -> Result<Vec<Item<'static>>, AllocError> {
    let mut longer = Vec::new(alloc);
    for one in word {
        longer.push(one.try_copy(alloc)?)?;
    }
    longer.push(item.try_copy(alloc)?)?;
    Ok(longer)
}
