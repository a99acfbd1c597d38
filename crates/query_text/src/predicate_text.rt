//! Predicates as texts.
ghost use Rattle.std.specs.Prelude.{◌≡◌, ◌++◌, codes, FitsSigned, OnOk};
ghost use Rattle.std.specs.Fmt.{signed_decimal};
ghost use Rattle.std.specs.Int.{w64};
ghost use Rattle.predicates.specs.Plain.{plain_of};
ghost use Rattle.query_parser.specs.Printing.{string_text};
ghost use Rattle.query_text.specs.Forms.{both, called, predicate_text, tested};
ghost use Rattle.query_text.specs.Memory.{HasOperands};
ghost use Rattle.query_text.specs.Names.{field_name};
ghost use Rattle.query_text.specs.Namings.{naming_of};
ghost use Rattle.value_ops.specs.Texts.{IsText};

use crate::naming::Naming;
use crate::pieces::{close, comma, open, write_number, write_string};
use predicates::Pred;
use std::alloc::AllocError;

/// Appends the predicate, in which names are those of the columns.
#[cycle(predicate)]
pub(crate) fn write_predicate(
    pred: &Pred,
    naming: &Naming<'_>,
    text: &mut Vec<u8>,
) -> Result<(), AllocError>
    ensures text { OnOk result (text.new.items
        ≡ text.old.items ++ predicate_text (naming_of naming.now) (plain_of pred.now)) }
    ensures operands { OnOk result (HasOperands (plain_of pred.now)) }
{
    match pred {
        Pred::Any => text.extend_from_slice(b"any"),
        Pred::Eq(column, number) => write_test(b"eq", *column, *number, naming, text),
        Pred::Ne(column, number) => write_test(b"ne", *column, *number, naming, text),
        Pred::Lt(column, number) => write_test(b"lt", *column, *number, naming, text),
        Pred::Le(column, number) => write_test(b"le", *column, *number, naming, text),
        Pred::Gt(column, number) => write_test(b"gt", *column, *number, naming, text),
        Pred::Ge(column, number) => write_test(b"ge", *column, *number, naming, text),
        Pred::Between(column, low, high) => write_between(*column, *low, *high, naming, text),
        Pred::EqText(column, bytes) => write_text_test(
            b"eq",
            *column,
            bytes.as_slice(),
            naming,
            text,
        ),
        Pred::NeText(column, bytes) => write_text_test(
            b"ne",
            *column,
            bytes.as_slice(),
            naming,
            text,
        ),
        Pred::IsNum(column) => write_is_num(*column, naming, text),
        Pred::And(left, right) => write_joined(b"and", left, right, naming, text),
        Pred::Or(left, right) => write_joined(b"or", left, right, naming, text),
        Pred::Not(inner) => write_negated(inner, naming, text),
    }
}

fn write_test(
    word: &[u8],
    column: u32,
    number: i64,
    naming: &Naming<'_>,
    text: &mut Vec<u8>,
) -> Result<(), AllocError>
    ensures text { OnOk result (text.new.items ≡ text.old.items
        ++ tested (naming_of naming.now) word.now column (signed_decimal number)) }
    ensures number { FitsSigned w64 number }
{
    open(word, text)?;
    naming.write_field(column, text)?;
    comma(text)?;
    write_number(number, text)?;
    close(text)
}

fn write_between(
    column: u32,
    low: i64,
    high: i64,
    naming: &Naming<'_>,
    text: &mut Vec<u8>,
) -> Result<(), AllocError>
    ensures text { OnOk result (text.new.items
        ≡ text.old.items ++ tested (naming_of naming.now) (codes "between")
        column (both (signed_decimal low) (signed_decimal high))) }
    ensures numbers { FitsSigned w64 low × FitsSigned w64 high }
{
    open(b"between", text)?;
    naming.write_field(column, text)?;
    comma(text)?;
    write_range(low, high, text)?;
    close(text)
}

fn write_range(low: i64, high: i64, text: &mut Vec<u8>) -> Result<(), AllocError>
    ensures { OnOk result (text.new.items
        ≡ text.old.items ++ both (signed_decimal low) (signed_decimal high)) }
{
    write_number(low, text)?;
    comma(text)?;
    write_number(high, text)
}

fn write_text_test(
    word: &[u8],
    column: u32,
    bytes: &[u8],
    naming: &Naming<'_>,
    text: &mut Vec<u8>,
) -> Result<(), AllocError>
    ensures text { OnOk result (text.new.items ≡ text.old.items
        ++ tested (naming_of naming.now) word.now column (string_text bytes.now)) }
    ensures bytes { OnOk result (IsText bytes.now) }
{
    open(word, text)?;
    naming.write_field(column, text)?;
    comma(text)?;
    write_string(bytes, text)?;
    close(text)
}

fn write_is_num(column: u32, naming: &Naming<'_>, text: &mut Vec<u8>) -> Result<(), AllocError>
    ensures { OnOk result (text.new.items ≡ text.old.items
        ++ called (codes "isnum") (field_name (naming_of naming.now) column)) }
{
    open(b"isnum", text)?;
    naming.write_field(column, text)?;
    close(text)
}

#[cycle(predicate)]
fn write_joined(
    word: &[u8],
    left: &Pred,
    right: &Pred,
    naming: &Naming<'_>,
    text: &mut Vec<u8>,
) -> Result<(), AllocError>
    ensures text { OnOk result (text.new.items ≡ text.old.items ++ called word.now
        (both (predicate_text (naming_of naming.now) (plain_of left.now))
        (predicate_text (naming_of naming.now) (plain_of right.now)))) }
    ensures operands { OnOk result (HasOperands (plain_of left.now) × HasOperands (plain_of right.now)) }
{
    open(word, text)?;
    write_predicate(left, naming, text)?;
    comma(text)?;
    write_predicate(right, naming, text)?;
    close(text)
}

#[cycle(predicate)]
fn write_negated(inner: &Pred, naming: &Naming<'_>, text: &mut Vec<u8>) -> Result<(), AllocError>
    ensures text { OnOk result (text.new.items ≡ text.old.items
        ++ called (codes "not") (predicate_text (naming_of naming.now) (plain_of inner.now))) }
    ensures operands { OnOk result (HasOperands (plain_of inner.now)) }
{
    open(b"not", text)?;
    write_predicate(inner, naming, text)?;
    close(text)
}
