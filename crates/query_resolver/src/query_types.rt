//! Queries with their types, and the types of columns.
ghost use Rattle.std.specs.Prelude.{◌≡◌, IfOk};
ghost use Rattle.query_model.specs.QueryTypes.{of_columns, type_of_kind};
ghost use Rattle.query_resolver.specs.Resolutions.{IsNode};

use item_schema::{Column, Kind};
use language_base::Span;
use query_model::Shape;
use std::alloc::{AllocError, Global};
use value_ops::ValueType;

/// A query and the type of its values.
#[derive(Drop)]
pub struct Typed {
    pub query: Box<query_model::Query>,
    pub ty: ValueType,
}

impl Typed {
    /// A query of this shape, in memory of its own.
    pub fn new(alloc: Global, shape: Shape, span: Span, ty: ValueType) -> Result<Typed, AllocError>
        ensures { IfOk result (IsNode shape span ty) }
    {
        let query = Box::new(alloc, query_model::Query { shape, span })?;
        Ok(Typed { query, ty })
    }
}

/// The types of the fields in the columns; a text has none.
pub fn types_of(alloc: Global, columns: &[Column]) -> Result<Vec<Option<ValueType>>, AllocError>
    ensures { IfOk result (λ types. types.items ≡ (of_columns columns.now).fields) }
{
    columns
        .iter()
        .map(|column| type_of_kind(column.kind))
        .collect(alloc)
}

fn type_of_kind(kind: Kind) -> Option<ValueType>
    ensures { result ≡ type_of_kind kind }
{
    match kind {
        Kind::Int | Kind::Fixed(_) | Kind::Number => Some(ValueType::Number),
        Kind::Text => None,
        Kind::Table => Some(ValueType::Table),
    }
}
