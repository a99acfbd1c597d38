//! The text of a line that was left out.
ghost use Rattle.std.specs.Io.{StartsWith};
ghost use Rattle.std.specs.Prelude.{◌≡◌, ◌++◌, OnOk, OnErr, decimal};
ghost use Rattle.report_writer.specs.Texts.{skip_text, cause_name};

use itoa::Buffer;
use line_reader::{Cause, Skip};
use std::alloc::AllocError;

/// Appends the cause by its name, and the column.
#[tactic(auto, using(crate::proofs::Begins::begins))]
pub fn push_skip(skip: Skip, text: &mut Vec<u8>) -> Result<(), AllocError>
    ensures ok { OnOk result (text.new.items ≡ text.old.items ++ skip_text skip) }
    ensures err { OnErr result (StartsWith text.new.items text.old.items) }
{
    text.extend_from_slice(b"skipped ")?;
    text.extend_from_slice(cause_name(skip.cause).as_bytes())?;
    text.extend_from_slice(b" ")?;
    push_number(skip.column, text)?;
    text.extend_from_slice(b"\n")
}

pub(crate) fn push_number(number: u32, text: &mut Vec<u8>) -> Result<(), AllocError>
    ensures ok { OnOk result (text.new.items ≡ text.old.items ++ decimal number) }
    ensures err { OnErr result (StartsWith text.new.items text.old.items) }
{
    let mut buffer = Buffer::new();
    text.extend_from_slice(buffer.format(number).as_bytes())
}

fn cause_name(cause: Cause) -> &'static str
    ensures { result.now ≡ cause_name cause }
{
    match cause {
        Cause::Long => "long",
        Cause::Cr => "cr",
        Cause::Columns => "columns",
        Cause::Number => "number",
        Cause::Range => "range",
        Cause::Digits => "digits",
    }
}
