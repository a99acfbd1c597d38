// Streams of one column and of two.
ghost use Rattle.std.specs.Prelude.{◌≡◌, IfOk, IsTrue};
ghost use Rattle.item_schema.specs.Layout.{has_digits, is_read};

use item_schema::{Column, Kind, Schema};
use std::alloc::{AllocError, Global};
use value_ops::Bytes;

fn column(alloc: Global, name: &[u8], kind: Kind) -> Result<Column, AllocError>
    ensures { IfOk result (λ column. column ≡ record { name = name.now; kind = kind }) }
{
    let name = Bytes::from_slice(alloc, name)?;
    Ok(Column { name, kind })
}

pub(crate) fn one_column(alloc: Global, kind: Kind) -> Result<Box<Schema>, AllocError>
    requires digits { IsTrue (has_digits kind) }
    requires read { IsTrue (is_read kind) }
{
    let columns = vec![in alloc; column(alloc, b"a", kind)?]?;
    Ok(Box::new(alloc, Schema::new(false, columns))?)
}

pub(crate) fn two_columns(
    alloc: Global,
    first: Kind,
    second: Kind,
) -> Result<Box<Schema>, AllocError>
    requires first_digits { IsTrue (has_digits first) }
    requires first_read { IsTrue (is_read first) }
    requires second_digits { IsTrue (has_digits second) }
    requires second_read { IsTrue (is_read second) }
{
    let columns = vec![in alloc; column(alloc, b"a", first)?, column(alloc, b"b", second)?]?;
    Ok(Box::new(alloc, Schema::new(false, columns))?)
}
