//! The keys of a word, and the items that the word has for each.
ghost use Rattle.std.specs.Prelude.{◌≡◌, ◌+◌, ◌||◌, length, IfOk, OnOk};
ghost use Rattle.std.specs.List.{list_any};
ghost use Rattle.std.specs.Str.{bytes_eq};
ghost use Rattle.predicates.specs.Plain.{plain_of};
ghost use Rattle.predicates.specs.Truth.{holds};
ghost use Rattle.query_model.specs.Denotation.{projection, with_key};
ghost use Rattle.query_model.specs.Keys.{key_of};
ghost use Rattle.slow_eval.specs.Projections.{AreKeysOf, IsOnItems};

use crate::places::copied;
use item_schema::Item;
use predicates::{Pred, holds};
use query_model::joined_key;
use std::alloc::{AllocError, Global};
use value_ops::{Bytes, Value};

/// The keys of a word in the order in which they appear, and how many of them have appeared in each
/// front.
#[derive(Drop)]
pub(crate) struct Keys {
    pub(crate) keys: Vec<Bytes>,
    pub(crate) counts: Vec<usize>,
}

/// The keys of the items that do not meet `sync`; an item that meets it belongs to all keys.
pub(crate) fn keys_of(
    alloc: Global,
    columns: &[u32],
    sync: &Pred,
    word: &[Item],
) -> Result<Keys, AllocError>
    ensures { IfOk result (λ found.
        AreKeysOf columns.now (plain_of sync.now) word.now found.keys.items found.counts.items) }
{
    let mut keys = Vec::new(alloc);
    let mut counts = Vec::new(alloc);
    counts.push(0)?;
    'items: for item in word {
        if !holds(sync, item) {
            add(&mut keys, joined_key(alloc, columns, item)?)?;
        }
        counts.push(keys.len())?;
    }
    Ok(Keys { keys, counts })
}

/// Appends the key if it is new.
fn add(keys: &mut Vec<Bytes>, key: Bytes) -> Result<(), AllocError>
    ensures { OnOk result (keys.new.items ≡ with_key keys.old.items key) }
{
    if !has_key(keys, key.as_slice()) {
        keys.push(key)?;
    }
    Ok(())
}

fn has_key(keys: &[Bytes], key: &[u8]) -> bool
    ensures { result ≡ list_any (bytes_eq key.now) keys.now }
{
    keys.iter().any(|other| key == other.as_slice())
}

/// Whether the item belongs to the key or to all keys.
fn is_of(
    alloc: Global,
    item: &Item,
    columns: &[u32],
    sync: &Pred,
    key: &[u8],
) -> Result<bool, AllocError>
    ensures { IfOk result (λ is. is ≡ (holds (plain_of sync.now) item.now
        || bytes_eq (key_of columns.now item.now) key.now)) }
{
    if holds(sync, item) {
        return Ok(true);
    }
    let own = joined_key(alloc, columns, item)?;
    Ok(own.as_slice() == key)
}

/// The items that belong to the key or to all keys.
pub(crate) fn projection(
    alloc: Global,
    columns: &[u32],
    sync: &Pred,
    key: &[u8],
    word: &[Item],
) -> Result<Vec<Item<'static>>, AllocError>
    ensures { IfOk result (λ items.
        items.items ≡ projection columns.now (plain_of sync.now) key.now word.now) }
{
    let mut items = Vec::new(alloc);
    'items: for item in word {
        if is_of(alloc, item, columns, sync, key)? {
            items.push(item.try_copy(alloc)?)?;
        }
    }
    Ok(items)
}

/// On each front of the word, the answer on as many items as it has for the key.
pub(crate) fn on_items(
    alloc: Global,
    columns: &[u32],
    sync: &Pred,
    key: &[u8],
    word: &[Item],
    answers: &[Option<Value>],
) -> Result<Vec<Option<Value>>, AllocError>
    requires { length answers.now
        ≡ length (projection columns.now (plain_of sync.now) key.now word.now) + 1 }
    ensures { IfOk result (λ row.
        IsOnItems columns.now (plain_of sync.now) key.now word.now answers.now row.items) }
{
    let mut row = Vec::new(alloc);
    row.push(copied(alloc, &answers[0])?)?;
    let mut items = 0;
    'items: for item in word {
        let counts = is_of(alloc, item, columns, sync, key)?;
        if counts {
            items += 1;
        }
        row.push(copied(alloc, &answers[items])?)?;
    }
    Ok(row)
}
