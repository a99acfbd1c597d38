//! What the names of an expression stand for.
ghost use Rattle.std.specs.Prelude.{◌≡◌, ◌≢◌, Some, IsOk, IfOk, option_and_then};
ghost use Rattle.std.specs.Option.{option_copied};
ghost use Rattle.expressions.specs.Evaluation.{part_at, record_in, scalar_in, table_in};
ghost use Rattle.expressions.specs.Evaluation.{value_named};
ghost use Rattle.expressions.specs.Shown.{inputs_of};
ghost use Rattle.expressions.specs.Typing.{HasPart, type_named, types_of};
ghost use Rattle.value_ops.specs.declared.value.ValueType.{ValueType};
ghost use Rattle.value_ops.specs.declared.value.ValueType.TheVariants as type;

use crate::Var;
use std::alloc::{AllocError, Global};
use value_ops::{Field, Rec, Scalar, Table, Value};

/// The fields of an item, and a left and a right value.
#[derive(Drop)]
pub(crate) struct Inputs<'a> {
    pub(crate) fields: &'a [Field],
    pub(crate) left: Option<&'a Value>,
    pub(crate) right: Option<&'a Value>,
}

impl<'a> Inputs<'a> {
    /// The scalar that a name stands for.
    pub(crate) fn scalar(&self, name: Var) -> Option<Scalar>
        ensures { result ≡ scalar_in (value_named (inputs_of self.now) name) }
    {
        match name {
            Var::Field(column) => self.fields.get(column as usize)?.scalar(),
            Var::Left => scalar_of(self.left),
            Var::Right => scalar_of(self.right),
        }
    }

    /// The scalar that the name of a number stands for.
    #[inline(always)]
    pub(crate) fn known_scalar(&self, name: Var) -> Scalar
        requires { type_named (types_of (inputs_of self.now)) name ≡ Some type.Number }
        ensures { scalar_in (value_named (inputs_of self.now) name) ≡ Some result }
    {
        match self.scalar(name) {
            Some(found) => found,
            None => unreachable!(),
        }
    }

    /// The table that the name of a table stands for.
    #[inline(always)]
    pub(crate) fn known_table(&self, name: Var) -> &'a Table
        requires { type_named (types_of (inputs_of self.now)) name ≡ Some type.Table }
        ensures { table_in (value_named (inputs_of self.now) name) ≡ Some result.now }
    {
        match self.table(name) {
            Some(found) => found,
            None => unreachable!(),
        }
    }

    /// The table that a name stands for.
    #[inline(always)]
    pub(crate) fn table(&self, name: Var) -> Option<&'a Table>
        ensures { option_copied result ≡ table_in (value_named (inputs_of self.now) name) }
    {
        match name {
            Var::Field(column) => match self.fields.get(column as usize) {
                Some(Field::Val(value)) => table_of(Some(value)),
                Some(Field::Int(_) | Field::Text(_)) | None => None,
            },
            Var::Left => table_of(self.left),
            Var::Right => table_of(self.right),
        }
    }

    /// The record that a name stands for.
    fn record(&self, name: Var) -> Option<&'a Rec>
        ensures { option_copied result ≡ record_in (value_named (inputs_of self.now) name) }
    {
        match name {
            Var::Field(column) => match self.fields.get(column as usize) {
                Some(Field::Val(value)) => record_of(Some(value)),
                Some(Field::Int(_) | Field::Text(_)) | None => None,
            },
            Var::Left => record_of(self.left),
            Var::Right => record_of(self.right),
        }
    }

    /// The part at a place of the record that a name stands for.
    pub(crate) fn known_part(&self, name: Var, place: u32) -> Scalar
        requires { HasPart (type_named (types_of (inputs_of self.now)) name) place }
        ensures { option_and_then (part_at place)
            (record_in (value_named (inputs_of self.now) name)) ≡ Some result }
    {
        match self.record(name) {
            Some(record) => record.part(place as usize - 1),
            None => unreachable!(),
        }
    }

    /// A copy of what the name stands for. Only a table takes memory.
    pub(crate) fn copy_of(&self, alloc: Global, name: Var) -> Result<Value, AllocError>
        requires { (type : ValueType)
            × (type_named (types_of (inputs_of self.now)) name ≡ Some type) }
        ensures value { IfOk result (λ value. value_named (inputs_of self.now) name ≡ Some value) }
        ensures no_memory { type_named (types_of (inputs_of self.now)) name ≢ Some type.Table
            → IsOk result }
    {
        if let Some(scalar) = self.scalar(name) {
            return Ok(Value::Scalar(scalar));
        }
        if let Some(record) = self.record(name) {
            return Ok(Value::Rec(*record));
        }
        let table = self.known_table(name);
        Ok(Value::Table(table.try_copy(alloc)?))
    }
}

fn scalar_of(value: Option<&Value>) -> Option<Scalar>
    ensures { result ≡ scalar_in (option_copied value.entry) }
{
    match value {
        Some(Value::Scalar(scalar)) => Some(*scalar),
        Some(Value::Rec(_) | Value::Table(_)) | None => None,
    }
}

fn table_of(value: Option<&Value>) -> Option<&Table>
    ensures { option_copied result ≡ table_in (option_copied value.entry) }
{
    match value {
        Some(Value::Table(table)) => Some(table),
        Some(Value::Scalar(_) | Value::Rec(_)) | None => None,
    }
}

fn record_of(value: Option<&Value>) -> Option<&Rec>
    ensures { option_copied result ≡ record_in (option_copied value.entry) }
{
    match value {
        Some(Value::Rec(record)) => Some(record),
        Some(Value::Scalar(_) | Value::Table(_)) | None => None,
    }
}
