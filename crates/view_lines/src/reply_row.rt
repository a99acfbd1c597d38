//! The rows of a line.
ghost use Rattle.std.specs.Option.{option_copied};
ghost use Rattle.std.specs.Prelude.{[], ◌∷◌, OnOk, Option};
ghost use Rattle.io_edge.specs.Lines as shown;
ghost use Rattle.value_ops.specs.declared.value.Value.{Value};
ghost use Rattle.view_lines.specs.Replies.{IsReadable, row_replied};
ghost use Rattle.view_lines.specs.Rows.{names_at};
ghost use Rattle.view_lines.specs.Sheets.{Writes};

use crate::item_again::item_again;
use crate::sheet::Sheet;
use item_schema::Schema;
use query_model::Follower;
use std::alloc::{AllocError, Global};
use stream_run::{Reply, Session};
use value_ops::Value;

/// Puts the names into the text, in place of what was there, where no line has come.
pub(crate) fn begin_text<F: Follower>(
    session: &Session<'_, F>,
    schema: &Schema,
    sheet: &mut Sheet,
    text: &mut Vec<u8>,
) -> Result<(), AllocError>
    ensures { OnOk result (Writes schema.now.columns (names_at session.now.began [])
        sheet.old sheet.new [] text.new.items) }
{
    text.clear();
    if session.began() {
        return Ok(());
    }
    sheet.push_names(schema.columns(), text)
}

/// Appends the row of a line to which the session replied so.
pub(crate) fn push_reply(
    alloc: Global,
    schema: &Schema,
    line: &[u8],
    reply: Reply,
    answer: Option<&Value>,
    sheet: &mut Sheet,
    text: &mut Vec<u8>,
) -> Result<(), AllocError>
    requires { IsReadable schema.now.columns line.now reply }
    ensures { OnOk result (Writes schema.now.columns
        (row_replied schema.now.columns (shown.text line.now) reply (option_copied answer.entry)
        ∷ []) sheet.old sheet.new text.old.items text.new.items) }
{
    match reply {
        Reply::Silent => Ok(()),
        Reply::Skipped(skip) => sheet.push_skipped(schema.columns(), Some(line), skip, text),
        Reply::Answered => {
            let item = item_again(alloc, schema, line)?;
            sheet.push_item(schema.columns(), item.fields(), answer, text)
        }
    }
}

/// The same of a line that is too long.
pub(crate) fn push_long_reply(
    schema: &Schema,
    reply: Reply,
    sheet: &mut Sheet,
    text: &mut Vec<u8>,
) -> Result<(), AllocError>
    ensures { OnOk result ((value : Option Value) →
        Writes schema.now.columns (row_replied schema.now.columns shown.long reply value ∷ [])
        sheet.old sheet.new text.old.items text.new.items) }
{
    match reply {
        Reply::Skipped(skip) => sheet.push_skipped(schema.columns(), None, skip, text),
        Reply::Silent | Reply::Answered => Ok(()),
    }
}
