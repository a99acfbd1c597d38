//! Rates and keys as texts.
ghost use Rattle.std.specs.Prelude.{◌≡◌, ◌≤◌, ◌++◌, codes, length, OnOk};
ghost use Rattle.query_text.specs.Forms.{both, called, key_text, names_text, other_names};
ghost use Rattle.query_text.specs.Forms.{rate_text};
ghost use Rattle.query_text.specs.Memory.{HaveOperands};
ghost use Rattle.query_text.specs.Namings.{naming_of};
ghost use Rattle.rate_expr.specs.Plain.{plain_of};

use crate::naming::Naming;
use crate::pieces::{close, comma, open};
use crate::predicate_text::write_predicate;
use rate_expr::Rate;
use std::alloc::AllocError;

/// Appends the rate, in which names are those of the columns.
#[cycle(rate)]
pub(crate) fn write_rate(
    rate: &Rate,
    naming: &Naming<'_>,
    text: &mut Vec<u8>,
) -> Result<(), AllocError>
    ensures text { OnOk result (text.new.items
        ≡ text.old.items ++ rate_text (naming_of naming.now) (plain_of rate.now)) }
    ensures operands { OnOk result (HaveOperands (plain_of rate.now)) }
{
    match rate {
        Rate::Empty => text.extend_from_slice(b"eps"),
        Rate::One(pred) => {
            open(b"item", text)?;
            write_predicate(pred, naming, text)?;
            close(text)
        }
        Rate::Seq(left, right) => write_joined(b"seq", left, right, naming, text),
        Rate::Alt(left, right) => write_joined(b"alt", left, right, naming, text),
        Rate::Star(inner) => {
            open(b"star", text)?;
            write_rate(inner, naming, text)?;
            close(text)
        }
    }
}

#[cycle(rate)]
fn write_joined(
    word: &[u8],
    left: &Rate,
    right: &Rate,
    naming: &Naming<'_>,
    text: &mut Vec<u8>,
) -> Result<(), AllocError>
    ensures text { OnOk result (text.new.items ≡ text.old.items ++ called word.now
        (both (rate_text (naming_of naming.now) (plain_of left.now))
        (rate_text (naming_of naming.now) (plain_of right.now)))) }
    ensures operands { OnOk result (HaveOperands (plain_of left.now) × HaveOperands (plain_of right.now)) }
{
    open(word, text)?;
    write_rate(left, naming, text)?;
    comma(text)?;
    write_rate(right, naming, text)?;
    close(text)
}

/// Appends the columns of a key: one by its name, and several as a call.
pub(crate) fn write_key(
    chosen: &[u32],
    naming: &Naming<'_>,
    text: &mut Vec<u8>,
) -> Result<(), AllocError>
    requires { 1 ≤ length chosen.now }
    ensures { OnOk result (text.new.items
        ≡ text.old.items ++ key_text (naming_of naming.now) chosen.now) }
{
    if let [column] = chosen {
        return naming.write_field(*column, text);
    }
    open(b"key", text)?;
    write_names(chosen, naming, text)?;
    close(text)
}

fn write_names(chosen: &[u32], naming: &Naming<'_>, text: &mut Vec<u8>) -> Result<(), AllocError>
    ensures { OnOk result (text.new.items
        ≡ text.old.items ++ names_text (naming_of naming.now) chosen.now) }
{
    match chosen {
        [] => Ok(()),
        [first, rest @ ..] => {
            naming.write_field(*first, text)?;
            write_other_names(rest, naming, text)
        }
    }
}

/// Appends names after another.
fn write_other_names(
    chosen: &[u32],
    naming: &Naming<'_>,
    text: &mut Vec<u8>,
) -> Result<(), AllocError>
    ensures { OnOk result (text.new.items
        ≡ text.old.items ++ other_names (naming_of naming.now) chosen.now) }
{
    match chosen {
        [] => Ok(()),
        [first, rest @ ..] => {
            comma(text)?;
            naming.write_field(*first, text)?;
            write_other_names(rest, naming, text)
        }
    }
}
