//! Values as bytes.
ghost use Rattle.std.specs.Prelude.{◌≡◌, ◌++◌, OnOk};
ghost use Rattle.std.specs.Int.{cast_unsigned, w64};
ghost use Rattle.runner_snapshot.specs.Bytes.{answer_bytes, in_eight, parts_bytes, scalar_bytes};
ghost use Rattle.runner_snapshot.specs.Bytes.{table_bytes, value_bytes};
ghost use Rattle.runner_snapshot.specs.Got.{Gets};

use crate::number_bytes::{put_count, put_text};
use crate::output::Output;
use crate::tags::ValueTag;
use std::alloc::AllocError;
use value_ops::{Rec, Scalar, Table, Value};

// A number in the eight bytes of its two's complement.
fn put_signed<O: Output>(number: i64, out: &mut O) -> Result<(), AllocError>
    ensures { OnOk result (Gets O.got out.old (in_eight (cast_unsigned w64 number)) out.new) }
{
    out.put(&number.to_be_bytes())
}

fn put_scalar<O: Output>(scalar: Scalar, out: &mut O) -> Result<(), AllocError>
    ensures { OnOk result (Gets O.got out.old (scalar_bytes scalar) out.new) }
{
    match scalar {
        Scalar::Number(number) => {
            out.put(&[ValueTag::Number.byte()])?;
            put_signed(number, out)
        }
        Scalar::Overflow => out.put(&[ValueTag::Overflow.byte()]),
        Scalar::DivZero => out.put(&[ValueTag::DivZero.byte()]),
    }
}

// The count of the entries, and each key with its scalar.
fn put_table<O: Output>(table: &Table, out: &mut O) -> Result<(), AllocError>
    ensures { OnOk result (Gets O.got out.old (table_bytes table.now) out.new) }
{
    put_count(table.len(), out)?;
    'entries: for i in 0..table.len() {
        put_text(table.key(i), out)?;
        put_scalar(table.value(i), out)?;
    }
    Ok(())
}

// The count of the parts in one byte, and the parts.
fn put_parts<O: Output>(parts: &Rec, out: &mut O) -> Result<(), AllocError>
    ensures { OnOk result (Gets O.got out.old (parts_bytes parts.now) out.new) }
{
    out.put(&[parts.len() as u8])?;
    'parts: for place in 0..parts.len() {
        put_scalar(parts.part(place), out)?;
    }
    Ok(())
}

/// Appends a value.
pub(crate) fn put_value<O: Output>(value: &Value, out: &mut O) -> Result<(), AllocError>
    ensures { OnOk result (Gets O.got out.old (value_bytes value.now) out.new) }
{
    match value {
        Value::Scalar(scalar) => put_scalar(*scalar, out),
        Value::Rec(parts) => {
            out.put(&[ValueTag::Rec.byte()])?;
            put_parts(parts, out)
        }
        Value::Table(table) => {
            out.put(&[ValueTag::Table.byte()])?;
            put_table(table, out)
        }
    }
}

/// Appends an answer.
pub(crate) fn put_answer<O: Output>(answer: &Option<Value>, out: &mut O) -> Result<(), AllocError>
    ensures { OnOk result (Gets O.got out.old (answer_bytes answer.now) out.new) }
{
    match answer {
        Some(value) => put_value(value, out),
        None => out.put(&[ValueTag::Absent.byte()]),
    }
}
