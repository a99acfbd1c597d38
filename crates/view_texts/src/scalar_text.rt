//! The text of a scalar.
ghost use Rattle.std.specs.Prelude.{◌≡◌, ◌++◌, OnOk};
ghost use Rattle.view_texts.specs.Values.{scalar_text, word_text};

use crate::decimal::push_decimal;
use crate::notation::Notation;
use std::alloc::AllocError;
use value_ops::Scalar;

pub(crate) fn push_scalar(
    notation: Notation,
    digits: u8,
    scalar: Scalar,
    text: &mut Vec<u8>,
) -> Result<(), AllocError>
    ensures { OnOk result (
        text.new.items ≡ text.old.items ++ scalar_text notation digits scalar) }
{
    match scalar {
        Scalar::Number(number) => push_decimal(digits, number, text),
        Scalar::Overflow => push_word(notation, "overflow", text),
        Scalar::DivZero => push_word(notation, "divzero", text),
    }
}

// Appends a word of letters.
fn push_word(notation: Notation, word: &str, text: &mut Vec<u8>) -> Result<(), AllocError>
    ensures { OnOk result (text.new.items ≡ text.old.items ++ word_text notation word.now) }
{
    match notation {
        Notation::Plain => text.extend_from_slice(word.as_bytes()),
        Notation::Json => {
            text.push(b'"')?;
            text.extend_from_slice(word.as_bytes())?;
            text.extend_from_slice(b"\"")
        }
    }
}
