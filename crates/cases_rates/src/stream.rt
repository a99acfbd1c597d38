//! The schema of a stream that is written as text.

use crate::stop::Stop;
use item_schema::{Column, Kind, Schema, are_columns};
use query_syntax::Stream;
use std::alloc::Global;

pub(crate) fn schema_of(alloc: Global, stream: &Stream) -> Result<Schema, Stop> {
    let mut columns = Vec::new(alloc);
    for column in &stream.columns {
        columns.push(Column {
            name: column.name.bytes.try_copy(alloc)?,
            kind: kind_of(column.kind),
        })?;
    }
    if !are_columns(&columns) {
        return Err(Stop::Name);
    }
    Ok(Schema::new(false, columns))
}

fn kind_of(kind: query_syntax::Kind) -> Kind {
    match kind {
        query_syntax::Kind::Int(_) => Kind::Int,
        query_syntax::Kind::Text(_) => Kind::Text,
        query_syntax::Kind::Fixed { digits, .. } => Kind::Fixed(digits.count),
    }
}
