//! The names of columns.
ghost use Rattle.std.specs.Prelude.{◌≡◌, ◌<◌, IfSome, length};
ghost use Rattle.predicates.specs.Fits.{has_texts};
ghost use Rattle.query_resolver.specs.Names.{column_named};
ghost use Rattle.query_resolver.specs.Resolved.{have_texts};

use item_schema::{Kind, Schema};

/// The column of this name, counted from 0.
pub fn column_named(schema: &Schema, name: &[u8]) -> Option<u32>
    ensures { result ≡ column_named schema.now.columns name.now }
{
    let place = place_named(schema.columns(), name)?;
    Some(place as u32)
}

fn place_named(columns: &[item_schema::Column], name: &[u8]) -> Option<usize>
    ensures place { result ≡ column_named columns.now name.now }
    ensures within { IfSome result (λ place. place < length columns.now) }
{
    columns
        .iter()
        .position(|column| name == column.name.as_slice())
}

/// Whether all columns exist and have texts.
pub fn have_texts(schema: &Schema, columns: &[u32]) -> bool
    ensures { result ≡ have_texts schema.now.columns columns.now }
{
    columns.iter().all(|column| has_texts(schema, *column))
}

fn has_texts(schema: &Schema, column: u32) -> bool
    ensures { result ≡ has_texts schema.now.columns column }
{
    schema
        .columns()
        .get(column as usize)
        .is_some_and(|found| matches!(found.kind, Kind::Text))
}
