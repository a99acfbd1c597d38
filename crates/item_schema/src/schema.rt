//! The columns of a stream.
ghost use Rattle.std.specs.Prelude.{◌≡◌, ◌↔◌, IsTrue, IfOk};
ghost use Rattle.item_schema.specs.Items.{IsItemOf};
ghost use Rattle.item_schema.specs.Layout.{IsLayout, are_columns, derived_layout};
ghost use Rattle.value_ops.specs.Types.{IsType};

use crate::derived::columns_of_values;
use crate::{Column, Item};
use std::alloc::{AllocError, Global};
use std::marker::Model;
use value_ops::{Field, ValueType};

/// The columns of a stream, and whether a header line comes before its items.
#[derive(Drop)]
pub struct Schema {
    has_header: bool,
    columns: Vec<Column>,
}

impl Model for Schema {
    ghost use Rattle.item_schema.specs.Layout.{Layout, IsLayout};

    ghost Value = { Layout };

    ghost view = { λ s. record { has_header = s.has_header; columns = s.columns.items } };

    ghost invariant = { λ s. IsLayout s.columns.items };
}

impl Schema {
    /// A schema of columns that lines are read to.
    pub fn new(has_header: bool, columns: Vec<Column>) -> Schema
        requires { IsTrue (are_columns columns.items) }
        ensures { result ≡ record { has_header = has_header; columns = columns.items } }
    {
        Schema {
            has_header,
            columns,
        }
    }

    /// The schema of a stream of values that another query gives.
    pub fn derived(alloc: Global, ty: ValueType) -> Result<Schema, AllocError>
        requires { IsType ty }
        ensures { IfOk result (λ schema. schema ≡ derived_layout ty) }
    {
        Ok(Schema {
            has_header: false,
            columns: columns_of_values(alloc, ty)?,
        })
    }

    pub fn has_header(&self) -> bool
        ensures { result ≡ self.now.has_header }
    {
        self.has_header
    }

    pub fn columns(&self) -> &[Column]
        ensures columns { result.now ≡ self.now.columns }
        ensures layout { IsLayout self.now.columns }
    {
        &self.columns
    }

    /// Whether the item is one of these columns.
    pub fn has_item(&self, item: &Item) -> bool
        ensures { IsTrue result ↔ IsItemOf self.now.columns item.now }
    {
        have_fields(&self.columns, item.fields())
    }

    pub fn try_copy(&self, alloc: Global) -> Result<Schema, AllocError>
        ensures { IfOk result (λ copy. copy ≡ self.now) }
    {
        let mut columns = Vec::with_capacity(alloc, self.columns.len())?;
        'columns: for column in &self.columns {
            columns.push(column.try_copy(alloc)?)?;
        }
        Ok(Schema {
            has_header: self.has_header,
            columns,
        })
    }
}

fn have_fields(columns: &[Column], fields: &[Field]) -> bool
    ensures { IsTrue result ↔ IsItemOf columns.now fields.now }
{
    'fields: for (column, field) in columns.iter().zip(fields) {
        if !column.kind.has_field(field) {
            return false;
        }
    }
    columns.len() == fields.len()
}
