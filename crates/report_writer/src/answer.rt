//! The text of an answer.
ghost use Rattle.std.specs.Io.{StartsWith};
ghost use Rattle.std.specs.Option.{option_copied};
ghost use Rattle.std.specs.Prelude.{◌≡◌, ◌++◌, OnOk, OnErr};
ghost use Rattle.report_writer.specs.Texts.{answer_text, scalar_text, value_text};

use crate::record_text::push_record;
use crate::table_text::push_table;
use itoa::Buffer;
use std::alloc::AllocError;
use value_ops::{Scalar, Value};

/// Appends the text of a value, or of none.
#[tactic(auto, using(crate::proofs::Begins::begins))]
pub fn push_answer(answer: Option<&Value>, text: &mut Vec<u8>) -> Result<(), AllocError>
    ensures ok { OnOk result (
        text.new.items ≡ text.old.items ++ answer_text (option_copied answer.entry)) }
    ensures err { OnErr result (StartsWith text.new.items text.old.items) }
{
    let Some(value) = answer else {
        return text.extend_from_slice(b"undefined\n");
    };
    push_value(value, text)?;
    text.extend_from_slice(b"\n")
}

#[inline(always)]
pub(crate) fn push_value(value: &Value, text: &mut Vec<u8>) -> Result<(), AllocError>
    ensures ok { OnOk result (text.new.items ≡ text.old.items ++ value_text value.now) }
    ensures err { OnErr result (StartsWith text.new.items text.old.items) }
{
    match value {
        Value::Scalar(scalar) => push_scalar(*scalar, text),
        Value::Rec(parts) => push_record(parts, text),
        Value::Table(table) => push_table(table, text),
    }
}

pub(crate) fn push_scalar(scalar: Scalar, text: &mut Vec<u8>) -> Result<(), AllocError>
    ensures ok { OnOk result (text.new.items ≡ text.old.items ++ scalar_text scalar) }
    ensures err { OnErr result (StartsWith text.new.items text.old.items) }
{
    match scalar {
        Scalar::Number(number) => {
            let mut buffer = Buffer::new();
            text.extend_from_slice(buffer.format(number).as_bytes())
        }
        Scalar::Overflow => text.extend_from_slice(b"overflow"),
        Scalar::DivZero => text.extend_from_slice(b"divzero"),
    }
}
