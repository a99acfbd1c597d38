//! Room for the fields of an item of a record.
ghost use Rattle.std.specs.Prelude.{◌≡◌};
ghost use Rattle.item_schema.specs.Items.{fields_of_parts};

use arrayvec::ArrayVec;
use value_ops::{Field, Rec, Value};

/// The most parts that a record has.
const PARTS: usize = 8;

/// A place for the field of each part of a record, so that an item of one takes no memory. Whoever
/// makes such an item keeps the room, since eight fields are too many to be moved with each item.
#[derive(Drop)]
pub struct Room {
    fields: ArrayVec<Field, PARTS>,
}

impl Room {
    pub fn new() -> Room {
        Room {
            fields: ArrayVec::new(),
        }
    }

    /// The fields of the parts of a record.
    pub(crate) fn fields_of(&mut self, parts: &Rec) -> &[Field]
        ensures { result.now ≡ fields_of_parts parts.now }
    {
        self.fields.clear();
        'places: for place in 0..parts.len() {
            self.fields
                .push(Field::Val(Value::Scalar(parts.part(place))));
        }
        self.fields.as_slice()
    }
}
