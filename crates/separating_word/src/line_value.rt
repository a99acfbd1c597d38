//! Whether a query has a value on the items of lines.
ghost use Rattle.std.specs.Prelude.{IfOk, IfSome};
ghost use Rattle.query_model.specs.Monitors.{monitor_of};
ghost use Rattle.query_model.specs.Queries.{plain_of};
ghost use Rattle.rate_expr.specs.Words.{IsWordOf};
ghost use Rattle.separating_word.specs.Findings.{Finds, FindsOn};
ghost use Rattle.separating_word.specs.Separations.{AreRead};

use item_schema::{Item, Schema};
use language_base::Bytes;
use line_reader::{ItemStop, read_item};
use query_model::Checked;
use slow_eval::answer_on;
use std::alloc::{AllocError, Global};

/// Whether a query has a value on the items of lines.
#[derive(Clone, Copy)]
pub(crate) enum Finding {
    /// It has a value.
    Value,
    /// It has no value.
    NoValue,
    /// Some line is no item.
    NoItem,
}

pub(crate) fn finding_on(
    alloc: Global,
    query: &Checked,
    lines: &[Bytes],
) -> Result<Finding, AllocError>
    ensures { IfOk result (Finds (monitor_of query.now) lines.now) }
{
    match items_of(alloc, query.schema(), lines)? {
        Some(items) => finding_of(alloc, query, &items),
        None => Ok(Finding::NoItem),
    }
}

// Whether the query has a value on a word of items of its stream.
fn finding_of(alloc: Global, query: &Checked, word: &[Item]) -> Result<Finding, AllocError>
    requires { IsWordOf query.now.layout.columns word.now }
    ensures { IfOk result (FindsOn (plain_of query.now.main.shape) word.now) }
{
    match answer_on(alloc, query.main(), word)? {
        Some(_value) => Ok(Finding::Value),
        None => Ok(Finding::NoValue),
    }
}

// The items of the lines, if each line is one.
fn items_of(
    alloc: Global,
    schema: &Schema,
    lines: &[Bytes],
) -> Result<Option<Vec<Item<'static>>>, AllocError>
    ensures read { IfOk result (λ items.
        IfSome items (λ word. AreRead schema.now.columns lines.now word.items)) }
    ensures word { IfOk result (λ items.
        IfSome items (λ word. IsWordOf schema.now.columns word.items)) }
{
    let mut items = Vec::new(alloc);
    'lines: for line in lines {
        match read_item(alloc, schema, line.as_slice()) {
            Ok(item) => items.push(item)?,
            Err(ItemStop::Skip(_)) => return Ok(None),
            Err(ItemStop::Memory) => return Err(AllocError),
        }
    }
    Ok(Some(items))
}
