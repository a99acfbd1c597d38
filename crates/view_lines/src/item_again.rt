//! The fields of an item that has been read already.
ghost use Rattle.std.specs.Prelude.{◌≡◌, IfOk, IsOk, Ok};
ghost use Rattle.line_reader.specs.Reading.{item_of};

use item_schema::{Item, Schema};
use line_reader::{ItemStop, read_item};
use std::alloc::{AllocError, Global};

/// Reads the line once more, since what follows the items keeps none.
pub(crate) fn item_again(
    alloc: Global,
    schema: &Schema,
    line: &[u8],
) -> Result<Item<'static>, AllocError>
    requires { IsOk (item_of schema.now.columns line.now) }
    ensures { IfOk result (λ item. item_of schema.now.columns line.now ≡ Ok item) }
{
    match read_item(alloc, schema, line) {
        Ok(item) => Ok(item),
        Err(ItemStop::Memory) => Err(AllocError),
        Err(ItemStop::Skip(_)) => unreachable!(),
    }
}
