//! The names in the text of a query.
ghost use Rattle.std.specs.Prelude.{◌≡◌, ◌<◌, ◌-◌, ◌^◌, ◌++◌, OnOk};
ghost use Rattle.query_text.specs.Names.{column_name, field_name, let_name, var_name};
ghost use Rattle.query_text.specs.Namings.{naming_of};

use crate::pieces::write_number;
use expressions::Var;
use item_schema::Column;
use std::alloc::AllocError;

/// What the fields of items are called.
#[derive(Clone, Copy)]
pub(crate) enum Naming<'s> {
    /// By the columns of a stream.
    Columns(&'s [Column]),
    /// As values of this width.
    Values(u32),
}

impl Naming<'_> {
    /// Appends the name of the field at a place.
    pub(crate) fn write_field(&self, place: u32, text: &mut Vec<u8>) -> Result<(), AllocError>
        ensures { OnOk result (text.new.items
            ≡ text.old.items ++ field_name (naming_of self.now) place) }
    {
        match *self {
            Naming::Columns(columns) => text.extend_from_slice(column_name(columns, place)),
            Naming::Values(1) => text.extend_from_slice(b"value"),
            Naming::Values(_) => {
                text.extend_from_slice(b"value")?;
                write_number(i64::from(place) + 1, text)
            }
        }
    }

    /// Appends the name of what an expression reads.
    pub(crate) fn write_var(&self, name: Var, text: &mut Vec<u8>) -> Result<(), AllocError>
        ensures { OnOk result (text.new.items
            ≡ text.old.items ++ var_name (naming_of self.now) name) }
    {
        match name {
            Var::Field(place) => self.write_field(place, text),
            Var::Left => text.extend_from_slice(b"x"),
            Var::Right => text.extend_from_slice(b"y"),
        }
    }
}

/// The name of the column at a place, and nothing where there is none.
fn column_name(columns: &[Column], place: u32) -> &[u8]
    ensures { result.now ≡ column_name columns.now place }
{
    match columns.get(place as usize) {
        Some(column) => column.name.as_slice(),
        None => &[],
    }
}

/// Appends the name of the let at a place.
pub(crate) fn write_let_name(place: usize, text: &mut Vec<u8>) -> Result<(), AllocError>
    requires { place < 2 ^ 63 - 1 }
    ensures { OnOk result (text.new.items ≡ text.old.items ++ let_name place) }
{
    text.extend_from_slice(b"q")?;
    write_number(place as i64 + 1, text)
}
