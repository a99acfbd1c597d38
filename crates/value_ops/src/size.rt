//! How much values count where they are kept.
ghost use Rattle.std.specs.Prelude.{◌≡◌, ◌-◌, ◌^◌, min};
ghost use Rattle.value_ops.specs.Sizes.{size_of_answer, size_of_value};

use crate::Value;

/// How much is kept for an answer, at most 2^64 - 1.
pub fn size_of_answer(answer: &Option<Value>) -> u64
    ensures { result ≡ min (size_of_answer answer.now) (2 ^ 64 - 1) }
{
    match answer {
        None => 0,
        Some(value) => size_of_value(value),
    }
}

/// How much is kept for a value, at most 2^64 - 1.
pub fn size_of_value(value: &Value) -> u64
    ensures { result ≡ min (size_of_value value.now) (2 ^ 64 - 1) }
{
    match value {
        Value::Scalar(_) => 1,
        Value::Rec(parts) => parts.len() as u64,
        Value::Table(table) => (table.len() as u64).saturating_add(1),
    }
}
