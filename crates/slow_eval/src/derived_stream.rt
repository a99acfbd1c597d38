//! The stream of the values of a query, and the answers of another query on it.
ghost use Rattle.std.specs.Prelude.{◌≡◌, ◌+◌, length, IfOk};
ghost use Rattle.item_schema.specs.Items.{fields_of_value};
ghost use Rattle.slow_eval.specs.Streams.{stream_of, IsOnStream};

use crate::places::copied;
use item_schema::{Item, Room};
use std::alloc::{AllocError, Global};
use value_ops::Value;

/// The answers, where there are any, as the items of a stream.
pub(crate) fn stream_of(
    alloc: Global,
    answers: &[Option<Value>],
) -> Result<Vec<Item<'static>>, AllocError>
    ensures { IfOk result (λ stream. stream.items ≡ stream_of answers.now) }
{
    let mut stream = Vec::new(alloc);
    'answers: for answer in answers {
        if let Some(value) = answer {
            stream.push(item_of(alloc, value)?)?;
        }
    }
    Ok(stream)
}

fn item_of(alloc: Global, value: &Value) -> Result<Item<'static>, AllocError>
    ensures { IfOk result (λ item. item ≡ fields_of_value value.now) }
{
    let mut room = Room::new();
    let item = Item::of_value(alloc, value, &mut room)?;
    item.into_owned(alloc)
}

/// At each place with a first answer, the second answer after as many items as there are first
/// answers so far. At any other place there is none.
pub(crate) fn on_stream(
    alloc: Global,
    firsts: &[Option<Value>],
    seconds: &[Option<Value>],
) -> Result<Vec<Option<Value>>, AllocError>
    requires { length seconds.now ≡ length (stream_of firsts.now) + 1 }
    ensures { IfOk result (λ row. IsOnStream firsts.now seconds.now row.items) }
{
    let mut row = Vec::new(alloc);
    let mut items = 0;
    'answers: for first in firsts {
        row.push(match first {
            Some(_) => {
                items += 1;
                copied(alloc, &seconds[items])?
            }
            None => None,
        })?;
    }
    Ok(row)
}
