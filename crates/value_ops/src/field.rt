//! A field of an item.
ghost use Rattle.std.specs.Prelude.{◌≡◌, IsOk, IfOk, IfSome, option_map};
ghost use Rattle.value_ops.specs.Texts.{IsText};

use crate::{Bytes, Scalar, Value, ValueType};
use std::alloc::{AllocError, Global};

/// What stands in one column.
#[derive(Drop)]
pub enum Field {
    Int(i64),
    Text(Bytes),
    /// A value that another query gave.
    Val(Value),
}

// What stands at a place that is kept for a field.
impl Default for Field {
    fn default() -> Field {
        Field::Int(0)
    }
}

impl Field {
    ghost use Rattle.value_ops.specs.Fields.{scalar_of, text_of, type_of_field};
    ghost use Rattle.value_ops.specs.Values.{TakesNoMemory};

    /// The number of an `Int`, or the scalar of a value that is one.
    pub fn scalar(&self) -> Option<Scalar>
        ensures { result ≡ scalar_of self.now }
    {
        match self {
            Field::Int(number) => Some(Scalar::Number(*number)),
            Field::Val(Value::Scalar(scalar)) => Some(*scalar),
            Field::Text(_) | Field::Val(Value::Rec(_) | Value::Table(_)) => None,
        }
    }

    /// The type of what stands in the field; a text has none.
    pub fn ty(&self) -> Option<ValueType>
        ensures { result ≡ type_of_field self.now }
    {
        match self {
            Field::Int(_) => Some(ValueType::Number),
            Field::Text(_) => None,
            Field::Val(value) => Some(value.ty()),
        }
    }

    pub fn text(&self) -> Option<&[u8]>
        ensures text { option_map (λ text. text.now) result ≡ text_of self.now }
        ensures bytes { IfSome result (λ text. IsText text.now) }
    {
        match self {
            Field::Text(text) => Some(known_bytes(text.as_slice())),
            Field::Int(_) | Field::Val(_) => None,
        }
    }

    pub fn try_copy(&self, alloc: Global) -> Result<Field, AllocError>
        ensures equal { IfOk result (λ copy. copy ≡ self.now) }
        ensures no_memory { TakesNoMemory self.now → IsOk result }
    {
        match self {
            Field::Int(number) => Ok(Field::Int(*number)),
            Field::Text(text) => Ok(Field::Text(text.try_copy(alloc)?)),
            Field::Val(value) => Ok(Field::Val(value.try_copy(alloc)?)),
        }
    }
}

// The same bytes, which are known to be those of a text.
fn known_bytes(bytes: &[u8]) -> &[u8]
    ensures same { result.now ≡ bytes.now }
    ensures text { IsText bytes.now }
{
    bytes
}
