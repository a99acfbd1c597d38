//! The schema of a stream.
ghost use Rattle.std.specs.Prelude.{◌≡◌, [], IfOk, None, map};
ghost use Rattle.query_lets.specs.Words.{column_words, first_wrong};
ghost use Rattle.query_syntax.specs.Limits.{IsWithin};
ghost use Rattle.query_syntax.specs.Plain.{plain_stream};
ghost use Rattle.query_resolver.specs.Layouts.{column_of, has_header, kind_of, layout_of};

use item_schema::{Column, Kind, Schema};
use query_syntax::{Mode, Stream};
use std::alloc::{AllocError, Global};

/// The schema of a stream, no two columns of which have the same name.
pub fn schema_of(alloc: Global, stream: &Stream) -> Result<Schema, AllocError>
    requires within { IsWithin (plain_stream stream.now) }
    requires distinct { first_wrong (column_words [] stream.now.columns.items) ≡ None }
    ensures { IfOk result (λ schema. schema ≡ layout_of (plain_stream stream.now)) }
{
    let columns = columns_of(alloc, &stream.columns)?;
    Ok(Schema::new(has_header(stream.mode), columns))
}

fn columns_of(alloc: Global, columns: &[query_syntax::Column]) -> Result<Vec<Column>, AllocError>
    ensures { IfOk result (λ made. made.items ≡ map column_of columns.now) }
{
    let mut made = Vec::with_capacity(alloc, columns.len())?;
    'columns: for column in columns {
        made.push(Column {
            name: column.name.bytes.try_copy(alloc)?,
            kind: kind_of(column.kind),
        })?;
    }
    Ok(made)
}

fn kind_of(kind: query_syntax::Kind) -> Kind
    ensures { result ≡ kind_of kind }
{
    match kind {
        query_syntax::Kind::Int(_) => Kind::Int,
        query_syntax::Kind::Text(_) => Kind::Text,
        query_syntax::Kind::Fixed { digits, .. } => Kind::Fixed(digits.count),
    }
}

fn has_header(mode: Mode) -> bool
    ensures { result ≡ has_header mode }
{
    match mode {
        Mode::Plain(_) => false,
        Mode::Header(_) => true,
    }
}
