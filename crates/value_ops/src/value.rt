//! A value that a query gives.
ghost use Rattle.std.specs.Prelude.{◌≡◌, IsOk, IfOk};

use crate::{Rec, Scalar, Table};
use std::alloc::{AllocError, Global};

/// A scalar, a record of scalars, or a table of them.
#[derive(Drop)]
pub enum Value {
    Scalar(Scalar),
    Rec(Rec),
    Table(Table),
}

/// Whether values are scalars, records or tables.
#[derive(Clone, Copy, Debug, PartialEq, Eq)]
pub enum ValueType {
    Number,
    /// A record of this many numbers.
    Rec(u32),
    Table,
}

impl Value {
    ghost use Rattle.value_ops.specs.Types.{IsValueOf, type_of};
    ghost use Rattle.value_ops.specs.Values.{IsNoTable};

    /// The type of the value.
    pub fn ty(&self) -> ValueType
        ensures ty { result ≡ type_of self.now }
        ensures value { IsValueOf result self.now }
    {
        match self {
            // Naming a number reads it, and what is read is one of 64 bits.
            &Value::Scalar(Scalar::Number(_number)) => ValueType::Number,
            Value::Scalar(_) => ValueType::Number,
            Value::Rec(record) => record.ty(),
            Value::Table(table) => table.ty(),
        }
    }

    #[inline(always)]
    pub fn try_copy(&self, alloc: Global) -> Result<Value, AllocError>
        ensures equal { IfOk result (λ copy. copy ≡ self.now) }
        ensures no_memory { IsNoTable self.now → IsOk result }
    {
        match self {
            Value::Scalar(scalar) => Ok(Value::Scalar(*scalar)),
            Value::Rec(record) => Ok(Value::Rec(*record)),
            Value::Table(table) => Ok(Value::Table(table.try_copy(alloc)?)),
        }
    }
}
