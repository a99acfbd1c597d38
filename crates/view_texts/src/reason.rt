//! Why a line is skipped.
ghost use Rattle.std.specs.Prelude.{◌≡◌, ◌++◌, OnOk};
ghost use Rattle.report_writer.specs.Texts.{cause_name};
ghost use Rattle.view_texts.specs.Reasons.{reason_text};

use itoa::Buffer;
use line_reader::{Cause, Skip};
use std::alloc::AllocError;

/// Appends the cause by its name, and the column.
pub fn push_reason(skip: Skip, text: &mut Vec<u8>) -> Result<(), AllocError>
    ensures { OnOk result (text.new.items ≡ text.old.items ++ reason_text skip) }
{
    let mut buffer = Buffer::new();
    text.extend_from_slice(cause_name(skip.cause).as_bytes())?;
    text.push(b' ')?;
    text.extend_from_slice(buffer.format(skip.column).as_bytes())
}

fn cause_name(cause: Cause) -> &'static str
    ensures { result.now ≡ cause_name cause }
{
    match cause {
        Cause::Long => "long",
        Cause::Cr => "cr",
        Cause::Columns => "columns",
        Cause::Number => "number",
        Cause::Range => "range",
        Cause::Digits => "digits",
    }
}
