//! The columns of a key, by their names.
ghost use Rattle.std.specs.Prelude.{◌≡◌, Some, IfErr, IfOk};
ghost use Rattle.std.specs.Option.{option_map};
ghost use Rattle.language_base.specs.declared.rule.Rule.TheVariants as rule;
ghost use Rattle.query_syntax.specs.Keys.{names_of};
ghost use Rattle.query_resolver.specs.Findings.{IsUnresolved};
ghost use Rattle.query_resolver.specs.Names.{columns_named, key_named, stand_once};
ghost use Rattle.query_resolver.specs.Steps.{found};

use crate::CheckStop;
use crate::columns::column_named;
use item_schema::Schema;
use language_base::{Rule, Span};
use query_model::KeyColumns;
use query_syntax::{Key, Name};
use std::alloc::{AllocError, Global};

/// The columns of the key, if each name is that of a column and none of them stands twice.
pub fn named_key(
    alloc: Global,
    schema: &Schema,
    key: &Key,
    span: Span,
) -> Result<KeyColumns, CheckStop>
    ensures made { IfOk result (λ columns.
        Some columns ≡ key_named schema.now.columns (names_of key.now)) }
    ensures refused { IfErr result
        (IsUnresolved (found rule.Name span (key_named schema.now.columns (names_of key.now)))) }
{
    let Some(at) = columns_named(alloc, schema, key.names())? else {
        return Err(CheckStop::refused(Rule::Name, span));
    };
    if !stand_once(&at) {
        return Err(CheckStop::refused(Rule::Name, span));
    }
    Ok(KeyColumns::of(at))
}

// The columns of these names, if there are all.
fn columns_named(
    alloc: Global,
    schema: &Schema,
    names: &[Name],
) -> Result<Option<Vec<u32>>, AllocError>
    ensures { IfOk result (λ found. option_map (λ at. at.items) found
        ≡ columns_named schema.now.columns names.now) }
{
    let mut at = Vec::new(alloc);
    'names: for name in names {
        match column_named(schema, name.bytes.as_slice()) {
            Some(column) => at.push(column)?,
            None => return Ok(None),
        }
    }
    Ok(Some(at))
}

fn stand_once(columns: &[u32]) -> bool
    ensures { result ≡ stand_once columns.now }
{
    match columns {
        [column, others @ ..] => !others.contains(column) && stand_once(others),
        [] => true,
    }
}
