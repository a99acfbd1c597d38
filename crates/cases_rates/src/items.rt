//! The items of a stream.

use crate::scope::Scope;
use crate::stop::Stop;
use item_schema::{Item, Schema};
use line_reader::read_item;
use std::alloc::Global;
use value_ops::{Field, Scalar, Value, ValueType};

/// A stream of lines, or one of the values of another query.
#[derive(Drop)]
pub(crate) struct Stream {
    pub(crate) scope: Scope,
    has_values: bool,
}

impl Stream {
    /// The stream that is declared by this text, or the one of values.
    pub(crate) fn of(alloc: Global, declared: &str) -> Result<Stream, Stop> {
        if declared != "values" {
            return Ok(Stream {
                scope: Scope::of(alloc, declared)?,
                has_values: false,
            });
        }
        let schema = Schema::derived(alloc, ValueType::Number)?;
        Ok(Stream {
            scope: Scope {
                schema,
                lets: Vec::new(alloc),
            },
            has_values: true,
        })
    }

    pub(crate) fn item(&self, alloc: Global, word: &str) -> Result<Item<'static>, Stop> {
        if self.has_values {
            return Ok(Item::from_field(Field::Val(Value::Scalar(scalar_of(word)?))));
        }
        Ok(read_item(alloc, &self.scope.schema, word.as_bytes())?)
    }
}

fn scalar_of(word: &str) -> Result<Scalar, Stop> {
    match word {
        "overflow" => Ok(Scalar::Overflow),
        "divzero" => Ok(Scalar::DivZero),
        _ => match word.parse::<i64>() {
            Ok(number) => Ok(Scalar::Number(number)),
            Err(_) => Err(Stop::Line),
        },
    }
}
