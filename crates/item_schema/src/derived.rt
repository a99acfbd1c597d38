//! The columns of a stream of values.
ghost use Rattle.std.specs.Prelude.{◌≡◌, ◌<◌, ◌≤◌, ◌++◌, [], ◌∷◌, codes, IfOk};
ghost use Rattle.item_schema.specs.Layout.{columns_of_values, part_column, part_columns};
ghost use Rattle.value_ops.specs.Types.{IsType};

use crate::{Column, Kind};
use std::alloc::{AllocError, Global};
use value_ops::{Bytes, ValueType};

/// The columns that have values of the type.
pub(crate) fn columns_of_values(alloc: Global, ty: ValueType) -> Result<Vec<Column>, AllocError>
    requires { IsType ty }
    ensures { IfOk result (λ columns. columns.items ≡ columns_of_values ty) }
{
    match ty {
        ValueType::Number => value_column(alloc, Kind::Number),
        ValueType::Rec(size) => part_columns(alloc, size),
        ValueType::Table => value_column(alloc, Kind::Table),
    }
}

fn value_column(alloc: Global, kind: Kind) -> Result<Vec<Column>, AllocError>
    ensures { IfOk result (λ columns.
        columns.items ≡ record { name = codes "value"; kind = kind } ∷ []) }
{
    let name = Bytes::from_slice(alloc, b"value")?;
    let mut columns = Vec::new(alloc);
    columns.push(Column { name, kind })?;
    Ok(columns)
}

fn part_columns(alloc: Global, size: u32) -> Result<Vec<Column>, AllocError>
    requires { size ≤ 8 }
    ensures { IfOk result (λ columns. columns.items ≡ part_columns size) }
{
    let mut columns = Vec::new(alloc);
    'places: for place in 0..size {
        columns.push(part_column(alloc, place)?)?;
    }
    Ok(columns)
}

fn part_column(alloc: Global, place: u32) -> Result<Column, AllocError>
    requires { place < 8 }
    ensures { IfOk result (λ column. column ≡ part_column place) }
{
    let mut name = Vec::from_slice(alloc, b"value")?;
    name.push(b'1' + place as u8)?;
    Ok(Column {
        name: Bytes::from_vec(name),
        kind: Kind::Number,
    })
}
