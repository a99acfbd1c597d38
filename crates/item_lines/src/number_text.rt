//! The texts of numbers.
ghost use Rattle.std.specs.Prelude.{◌≡◌, ◌++◌, IsTrue, OnOk};
ghost use Rattle.std.specs.Fmt.{decimal, sign_text, signed_decimal};
ghost use Rattle.std.specs.Int.{is_negative};
ghost use Rattle.item_schema.specs.Layout.{has_digits};
ghost use Rattle.item_lines.specs.Lines.{fixed_text, in_digits};

use item_schema::Kind;
use itoa::Buffer;
use std::alloc::AllocError;

/// Appends a whole number.
pub(crate) fn push_whole(number: i64, line: &mut Vec<u8>) -> Result<(), AllocError>
    ensures { OnOk result (line.new.items ≡ line.old.items ++ signed_decimal number) }
{
    let mut buffer = Buffer::new();
    line.extend_from_slice(buffer.format(number).as_bytes())
}

/// Appends a number of smallest units, with `places` digits after its point.
pub(crate) fn push_fixed(places: u8, number: i64, line: &mut Vec<u8>) -> Result<(), AllocError>
    requires { IsTrue (has_digits (Kind.Fixed places)) }
    ensures { OnOk result (line.new.items ≡ line.old.items ++ fixed_text places number) }
{
    let unit = 10u64.pow(u32::from(places));
    let size = number.unsigned_abs();
    push_sign(number, line)?;
    push_decimal(size / unit, line)?;
    line.push(b'.')?;
    push_digits(places, size % unit, line)
}

fn push_sign(number: i64, line: &mut Vec<u8>) -> Result<(), AllocError>
    ensures { OnOk result (line.new.items ≡ line.old.items ++ sign_text (is_negative number)) }
{
    if number < 0 {
        line.push(b'-')?;
    }
    Ok(())
}

fn push_decimal(number: u64, line: &mut Vec<u8>) -> Result<(), AllocError>
    ensures { OnOk result (line.new.items ≡ line.old.items ++ decimal number) }
{
    let mut buffer = Buffer::new();
    line.extend_from_slice(buffer.format(number).as_bytes())
}

// Appends the number, with zeros in front if it has fewer than `least` digits.
fn push_digits(least: u8, number: u64, line: &mut Vec<u8>) -> Result<(), AllocError>
    ensures { OnOk result (line.new.items ≡ line.old.items ++ in_digits least number) }
{
    let mut buffer = Buffer::new();
    let digits = buffer.format(number).as_bytes();
    'zeros: for _ in 0..usize::from(least).saturating_sub(digits.len()) {
        line.push(b'0')?;
    }
    line.extend_from_slice(digits)
}
