//! An item of a stream.
ghost use Rattle.std.specs.Prelude.{◌≡◌, [], ◌∷◌, IsOk, IfOk};
ghost use Rattle.item_schema.specs.Items.{fields_of_value};
ghost use Rattle.value_ops.specs.Values.{IsNoTable};

use crate::Room;
use std::alloc::{AllocError, Global};
use std::marker::Model;
use std::slice;
use value_ops::{Field, Value};

/// A field for each column of a stream, seen as the list of these. What keeps an item has one for
/// `'static`, which owns its fields.
#[derive(Drop)]
pub struct Item<'a> {
    fields: Fields<'a>,
}

// One field takes no memory, nor do those of a record's parts, which lie in a room.
#[derive(Drop)]
enum Fields<'a> {
    One(Field),
    Many(Vec<Field>),
    Lent(&'a [Field]),
}

impl<'a> Model for Item<'a> {
    ghost use Rattle.std.specs.Prelude.{List};
    ghost use Rattle.value_ops.specs.declared.field.Field.{Field};

    ghost Value = { List Field };

    ghost use Rattle.item_schema.specs.Fields.{list_of};

    ghost view = { λ i. list_of i.fields };
}

impl<'a> Item<'a> {
    /// The item of a stream of values. The fields of a record's parts lie in the room.
    pub fn of_value(
        alloc: Global,
        value: &Value,
        room: &'a mut Room,
    ) -> Result<Item<'a>, AllocError>
        ensures item { IfOk result (λ item. item ≡ fields_of_value value.now) }
        ensures no_memory { IsNoTable value.now → IsOk result }
    {
        Ok(Item::from_value(value.try_copy(alloc)?, room))
    }

    /// The item of a stream of values, which takes the value itself.
    pub fn from_value(value: Value, room: &'a mut Room) -> Item<'a>
        ensures { result ≡ fields_of_value value }
    {
        match value {
            Value::Rec(parts) => Item {
                fields: Fields::Lent(room.fields_of(&parts)),
            },
            Value::Scalar(_) | Value::Table(_) => Item::from_field(Field::Val(value)),
        }
    }

    /// The item of a stream of one column.
    pub fn from_field(field: Field) -> Item<'a>
        ensures { result ≡ field ∷ [] }
    {
        Item {
            fields: Fields::One(field),
        }
    }

    pub fn from_fields(fields: Vec<Field>) -> Item<'a>
        ensures { result ≡ fields.items }
    {
        Item {
            fields: Fields::Many(fields),
        }
    }

    pub fn fields(&self) -> &[Field]
        ensures { result.now ≡ self.now }
    {
        match &self.fields {
            Fields::One(field) => slice::from_ref(field),
            Fields::Many(fields) => fields,
            Fields::Lent(fields) => *fields,
        }
    }

    /// The same item, which owns its fields.
    pub fn into_owned(self, alloc: Global) -> Result<Item<'static>, AllocError>
        ensures { IfOk result (λ item. item ≡ self.entry) }
    {
        Ok(Item {
            fields: self.fields.into_owned(alloc)?,
        })
    }

    /// A copy, which owns its fields.
    pub fn try_copy(&self, alloc: Global) -> Result<Item<'static>, AllocError>
        ensures { IfOk result (λ copy. copy ≡ self.now) }
    {
        Ok(Item {
            fields: self.fields.try_copy(alloc)?,
        })
    }
}

impl<'a> Fields<'a> {
    ghost use Rattle.item_schema.specs.Fields.{list_of};

    fn into_owned(self, alloc: Global) -> Result<Fields<'static>, AllocError>
        ensures { IfOk result (λ owned. list_of owned ≡ list_of self.entry) }
    {
        match self {
            Fields::One(field) => Ok(Fields::One(field)),
            Fields::Many(fields) => Ok(Fields::Many(fields)),
            Fields::Lent(fields) => Ok(Fields::Many(copied(alloc, fields)?)),
        }
    }

    fn try_copy(&self, alloc: Global) -> Result<Fields<'static>, AllocError>
        ensures { IfOk result (λ copy. list_of copy ≡ list_of self.now) }
    {
        match self {
            Fields::One(field) => Ok(Fields::One(field.try_copy(alloc)?)),
            Fields::Many(fields) => Ok(Fields::Many(copied(alloc, fields)?)),
            Fields::Lent(fields) => Ok(Fields::Many(copied(alloc, *fields)?)),
        }
    }
}

fn copied(alloc: Global, fields: &[Field]) -> Result<Vec<Field>, AllocError>
    ensures { IfOk result (λ copy. copy.items ≡ fields.now) }
{
    let mut copy = Vec::with_capacity(alloc, fields.len())?;
    'fields: for field in fields {
        copy.push(field.try_copy(alloc)?)?;
    }
    Ok(copy)
}
