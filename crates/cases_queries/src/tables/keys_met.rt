//! How many keys the collects of a query meet.

use crate::tables::stop::Stop;
use item_schema::Item;
use line_reader::read_item;
use query_model::{Checked, Query, Shape, joined_key};
use std::alloc::{AllocError, Global};
use std::collections::BTreeSet;

/// The number of keys among the items, each counted once for each list of columns.
pub(crate) fn keys_met(alloc: Global, checked: &Checked, items: &str) -> Result<u32, Stop> {
    let mut keys = BTreeSet::new(alloc);
    'items: for line in items.split_whitespace() {
        match read_item(alloc, checked.schema(), line.as_bytes()) {
            Ok(item) => add_keys(alloc, checked.main(), &item, &mut keys)?,
            Err(_) => return Err(Stop::Line),
        }
    }
    Ok(u32::try_from(keys.len()).unwrap_or(u32::MAX))
}

/// Adds the keys that an item has for the collects.
fn add_keys(
    alloc: Global,
    query: &Query,
    item: &Item,
    keys: &mut BTreeSet<Vec<u8>>,
) -> Result<(), AllocError> {
    match &query.shape {
        Shape::Atom(..) | Shape::Eps(_) => Ok(()),
        Shape::Or(first, second)
        | Shape::Split(first, second, _)
        | Shape::Combine(first, second, _) => {
            add_keys(alloc, first, item, keys)?;
            add_keys(alloc, second, item, keys)
        }
        Shape::Iter(inner, ..) | Shape::Apply(inner, _) | Shape::Compose(inner, _) => {
            add_keys(alloc, inner, item, keys)
        }
        Shape::Collect(columns, _, _, inner) => {
            keys.insert(key_with_columns(alloc, columns.as_slice(), item)?)?;
            add_keys(alloc, inner, item, keys)
        }
    }
}

/// The columns, a byte that is no column, and the key.
fn key_with_columns(alloc: Global, columns: &[u32], item: &Item) -> Result<Vec<u8>, AllocError> {
    let mut bytes = Vec::new(alloc);
    'columns: for column in columns {
        bytes.push(u8::try_from(*column).unwrap_or(u8::MAX))?;
    }
    bytes.push(u8::MAX)?;
    let key = joined_key(alloc, columns, item)?;
    bytes.extend_from_slice(key.as_slice())?;
    Ok(bytes)
}
