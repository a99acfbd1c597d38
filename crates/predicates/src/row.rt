//! Rows of fields about which predicates are asked.
ghost use Rattle.std.specs.Prelude.{◌≡◌, List, option_map};
ghost use Rattle.value_ops.specs.declared.field.Field.{Field};
ghost use Rattle.predicates.specs.Truth.{number_in, text_in};

use value_ops::{Field, Scalar};

/// What tests see of the fields of a row.
pub trait Row {
    ghost fields: { Self → List Field };

    /// The number in a column.
    fn number(&self, column: u32) -> Option<i64>
        ensures { result ≡ number_in (fields self.now) column };

    /// The text in a column.
    fn text(&self, column: u32) -> Option<&[u8]>
        ensures { option_map (λ text. text.now) result ≡ text_in (fields self.now) column };
}

/// The fields themselves.
#[derive(Clone, Copy)]
pub struct Fields<'f>(pub &'f [Field]);

impl Row for Fields<'_> {
    ghost fields = { λ r. r.0.now };

    fn number(&self, column: u32) -> Option<i64> {
        number_in(self.0, column)
    }

    fn text(&self, column: u32) -> Option<&[u8]> {
        self.0.get(column as usize)?.text()
    }
}

/// The number in a column, counted from 0, if there is one.
pub fn number_in(fields: &[Field], column: u32) -> Option<i64>
    ensures { result ≡ number_in fields.now column }
{
    match fields.get(column as usize)?.scalar() {
        Some(Scalar::Number(number)) => Some(number),
        _ => None,
    }
}
