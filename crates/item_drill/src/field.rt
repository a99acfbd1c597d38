//! The fields of a drilled line.
ghost use Rattle.std.specs.Prelude.{◌≡◌, ◌++◌, ◌&&◌, IsTrue, OnOk};
ghost use Rattle.std.specs.Fmt.{decimal, sign_text, signed_decimal};
ghost use Rattle.std.specs.Int.{is_negative};
ghost use Rattle.item_schema.specs.Layout.{has_digits, is_read};
ghost use Rattle.item_drill.specs.Fields.{field_text, fixed_text, in_digits, number_of};

use item_schema::Kind;
use itoa::Buffer;
use std::alloc::AllocError;

/// From how many numbers the number of a field is drawn.
const NUMBERS: u32 = 2001;
/// The greatest of these numbers. The least is its negative.
const GREATEST: i64 = 1000;
/// From how many texts the text of a field is drawn.
const TEXTS: u32 = 8;

/// Appends the field of a column of this kind that belongs to the draw.
pub(crate) fn push_field(kind: Kind, draw: u32, text: &mut Vec<u8>) -> Result<(), AllocError>
    requires { IsTrue (has_digits kind && is_read kind) }
    ensures { OnOk result (text.new.items ≡ text.old.items ++ field_text kind draw) }
{
    match kind {
        Kind::Int => push_whole(number_of(draw), text),
        Kind::Fixed(places) => push_fixed(places, number_of(draw), text),
        Kind::Text => text.extend_from_slice(&[b'k', b'0' + (draw % TEXTS) as u8]),
        Kind::Number | Kind::Table => unreachable!(),
    }
}

fn number_of(draw: u32) -> i64
    ensures { result ≡ number_of draw }
{
    i64::from(draw % NUMBERS) - GREATEST
}

fn push_whole(number: i64, text: &mut Vec<u8>) -> Result<(), AllocError>
    ensures { OnOk result (text.new.items ≡ text.old.items ++ signed_decimal number) }
{
    let mut buffer = Buffer::new();
    text.extend_from_slice(buffer.format(number).as_bytes())
}

fn push_fixed(places: u8, number: i64, text: &mut Vec<u8>) -> Result<(), AllocError>
    requires { IsTrue (has_digits (Kind.Fixed places)) }
    ensures { OnOk result (text.new.items ≡ text.old.items ++ fixed_text places number) }
{
    let unit = 10u64.pow(u32::from(places));
    let size = number.unsigned_abs();
    push_sign(number, text)?;
    push_decimal(size / unit, text)?;
    text.push(b'.')?;
    push_digits(places, size % unit, text)
}

fn push_sign(number: i64, text: &mut Vec<u8>) -> Result<(), AllocError>
    ensures { OnOk result (text.new.items ≡ text.old.items ++ sign_text (is_negative number)) }
{
    if number < 0 {
        text.push(b'-')?;
    }
    Ok(())
}

fn push_decimal(number: u64, text: &mut Vec<u8>) -> Result<(), AllocError>
    ensures { OnOk result (text.new.items ≡ text.old.items ++ decimal number) }
{
    let mut buffer = Buffer::new();
    text.extend_from_slice(buffer.format(number).as_bytes())
}

// Appends the number, with zeros in front if it has fewer than `least` digits.
fn push_digits(least: u8, number: u64, text: &mut Vec<u8>) -> Result<(), AllocError>
    ensures { OnOk result (text.new.items ≡ text.old.items ++ in_digits least number) }
{
    let mut buffer = Buffer::new();
    let digits = buffer.format(number).as_bytes();
    'zeros: for _ in 0..usize::from(least).saturating_sub(digits.len()) {
        text.push(b'0')?;
    }
    text.extend_from_slice(digits)
}
