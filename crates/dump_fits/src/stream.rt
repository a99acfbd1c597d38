//! The items that a query reads.
ghost use Rattle.std.specs.Prelude.{◌≡◌};
ghost use Rattle.query_model.specs.QueryTypes.{of_columns, type_of_kind};
ghost use Rattle.expressions.specs.Typing.{type_named};
ghost use Rattle.expressions.specs.declared.expr.Var.TheVariants as var;
ghost use Rattle.dump_fits.specs.Streams.{columns_of};

use item_schema::{Column, Kind};
use value_ops::ValueType;

/// Where the items come from.
#[derive(Drop)]
pub(crate) enum Stream<'a> {
    /// They are read, and have these columns.
    Read(&'a [Column]),
    /// They are the values of another query, which have this type.
    Values(ValueType),
}

impl Stream<'_> {
    /// The type of what stands in a column.
    pub(crate) fn type_in(&self, column: u32) -> Option<ValueType>
        ensures { result ≡ type_named (of_columns (columns_of self.now)) (var.Field column) }
    {
        match self {
            Stream::Read(columns) => match columns.get(column as usize) {
                Some(column) => type_of_kind(column.kind),
                None => None,
            },
            Stream::Values(ValueType::Number) => (column == 0).then_some(ValueType::Number),
            Stream::Values(ValueType::Rec(size)) => (column < *size).then_some(ValueType::Number),
            Stream::Values(ValueType::Table) => (column == 0).then_some(ValueType::Table),
        }
    }
}

fn type_of_kind(kind: Kind) -> Option<ValueType>
    ensures { result ≡ type_of_kind kind }
{
    match kind {
        Kind::Int | Kind::Fixed(_) | Kind::Number => Some(ValueType::Number),
        Kind::Text => None,
        Kind::Table => Some(ValueType::Table),
    }
}
