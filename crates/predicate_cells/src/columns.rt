//! The classes of all columns, and the cells that they make. A cell is a class for each column,
//! read as a number whose digits are the classes.
ghost use Rattle.std.specs.Prelude.{◌≡◌, ◌<◌, ◌≤◌, ◌*◌, ◌^◌, length, map, slice_get, IfOk, IfSome};
ghost use Rattle.std.specs.Prelude.{IfNone};
ghost use Rattle.std.specs.Option.{option_map_or};
ghost use Rattle.language_base.specs.Limits.{max_cells};
ghost use Rattle.predicates.specs.Plain.{plain_of};
ghost use Rattle.predicate_cells.specs.Samples.{sample_of};
ghost use Rattle.predicate_cells.specs.Ranks.{ranks_from, class_in, cells_in, cell_in};

use crate::classes::Classes;
use item_schema::Column;
use predicates::Pred;
use std::alloc::{AllocError, Global};
use value_ops::Field;

/// A stream with more cells is refused.
const MAX_CELLS: usize = 4096;

/// The classes of each column.
pub(crate) fn classes_of(
    alloc: Global,
    columns: &[Column],
    preds: &[Pred],
) -> Result<Vec<Classes>, AllocError>
    requires { length columns.now < 2 ^ 32 }
    ensures { IfOk result (λ classes.
        classes.items ≡ ranks_from 0 columns.now (map plain_of preds.now)) }
{
    let mut classes = Vec::with_capacity(alloc, columns.len())?;
    for (at, column) in columns.iter().enumerate() {
        classes.push(Classes::new(alloc, preds, at as u32, column.kind)?)?;
    }
    Ok(classes)
}

pub(crate) fn copies_of(alloc: Global, columns: &[Classes]) -> Result<Vec<Classes>, AllocError>
    ensures { IfOk result (λ copies. copies.items ≡ columns.now) }
{
    let mut copies = Vec::with_capacity(alloc, columns.len())?;
    for classes in columns {
        copies.push(classes.try_copy(alloc)?)?;
    }
    Ok(copies)
}

/// How many cells the columns make, unless they are too many.
pub(crate) fn count_of(columns: &[Classes]) -> Option<u32>
    ensures few { IfSome result (λ count. (count ≡ cells_in columns.now) × (count ≤ max_cells)) }
    ensures many { IfNone result (max_cells < cells_in columns.now) }
{
    let mut count = 1;
    for classes in columns {
        count = times(count, classes.count())?;
    }
    Some(count as u32)
}

/// The same for some of the columns, which are known to make few enough.
pub(crate) fn product_of(columns: &[Classes]) -> usize
    requires { cells_in columns.now ≤ max_cells }
    ensures { result ≡ cells_in columns.now }
{
    let mut count = 1;
    for classes in columns {
        count *= classes.count();
    }
    count
}

fn times(count: usize, classes: usize) -> Option<usize>
    ensures few { IfSome result (λ product. (product ≡ count * classes) × (product ≤ max_cells)) }
    ensures many { IfNone result (max_cells < count * classes) }
{
    count
        .checked_mul(classes)
        .filter(|product| *product <= MAX_CELLS)
}

pub(crate) fn cell_among(columns: &[Classes], fields: &[Field]) -> u32
    requires { cells_in columns.now ≤ max_cells }
    ensures { result ≡ cell_in columns.now fields.now }
{
    let mut cell = 0;
    for (at, classes) in columns.iter().enumerate() {
        cell = cell * classes.count() + class_at(classes, fields, at);
    }
    cell as u32
}

// A field that is missing counts as one of the first class.
fn class_at(classes: &Classes, fields: &[Field], at: usize) -> usize
    ensures { result ≡ option_map_or (class_in classes.now) (slice_get fields.now at) 0 }
{
    fields.get(at).map_or(0, |field| classes.class_of(field))
}

/// The fields of the sample of a cell: an item of it that is made from its classes.
pub(crate) fn fields_of(
    alloc: Global,
    columns: &[Classes],
    cell: u32,
) -> Result<Vec<Field>, AllocError>
    requires few { cells_in columns.now ≤ max_cells }
    requires below { cell < cells_in columns.now }
    ensures { IfOk result (λ fields. fields.items ≡ sample_of columns.now cell) }
{
    let mut fields = Vec::with_capacity(alloc, columns.len())?;
    let mut width = product_of(columns);
    let mut rest = cell as usize;
    for classes in columns {
        width /= classes.count();
        fields.push(classes.field(alloc, rest / width)?)?;
        rest %= width;
    }
    Ok(fields)
}
