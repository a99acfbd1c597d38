//! A column of a stream.
ghost use Rattle.std.specs.Prelude.{◌≡◌, ◌↔◌, IsTrue, IfOk};

use std::alloc::{AllocError, Global};
use value_ops::{Bytes, Field, ValueType};

/// What the fields of a column are.
#[derive(Clone, Copy, Debug, PartialEq, Eq)]
pub enum Kind {
    /// Whole numbers of 64 bits.
    Int,
    /// Numbers with this many digits after the point, from 1 to 9, counted in the smallest unit.
    Fixed(u8),
    Text,
    /// Numbers that another query gives, `overflow` and `divzero` among them.
    Number,
    /// Tables that another query gives.
    Table,
}

impl Kind {
    ghost use Rattle.item_schema.specs.Items.{IsFieldOf};

    /// Whether a column of this kind may have the field.
    pub fn has_field(self, field: &Field) -> bool
        ensures { IsTrue result ↔ IsFieldOf self field.now }
    {
        match (self, field) {
            // Naming a number reads it, and what is read is one of 64 bits.
            (Kind::Int | Kind::Fixed(_), &Field::Int(_number)) => true,
            (Kind::Text, _) => field.text().is_some(),
            (Kind::Number, Field::Val(value)) => value.ty() == ValueType::Number,
            (Kind::Table, Field::Val(value)) => value.ty() == ValueType::Table,
            _ => false,
        }
    }
}

/// A column: its name and what its fields are.
#[derive(Drop)]
pub struct Column {
    pub name: Bytes,
    pub kind: Kind,
}

impl Column {
    pub(crate) fn try_copy(&self, alloc: Global) -> Result<Column, AllocError>
        ensures { IfOk result (λ copy. copy ≡ self.now) }
    {
        Ok(Column {
            name: self.name.try_copy(alloc)?,
            kind: self.kind,
        })
    }
}
