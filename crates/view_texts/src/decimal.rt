//! Numbers with digits after a point.
ghost use Rattle.std.specs.Prelude.{◌≡◌, ◌++◌, OnOk, replicate};
ghost use Rattle.std.specs.Fmt.{sign_text};
ghost use Rattle.std.specs.Int.{is_negative};
ghost use Rattle.view_texts.specs.Decimals.{decimal_text, or_zero, pointed};

use itoa::Buffer;
use std::alloc::AllocError;

/// Appends a number that is counted in the smallest unit, with this many digits after the point,
/// and with no point where there are none.
pub fn push_decimal(digits: u8, number: i64, text: &mut Vec<u8>) -> Result<(), AllocError>
    ensures { OnOk result (text.new.items ≡ text.old.items ++ decimal_text digits number) }
{
    let mut buffer = Buffer::new();
    let size = buffer.format(number.unsigned_abs()).as_bytes();
    push_sign(number, text)?;
    push_pointed(usize::from(digits), size, text)
}

fn push_sign(number: i64, text: &mut Vec<u8>) -> Result<(), AllocError>
    ensures { OnOk result (text.new.items ≡ text.old.items ++ sign_text (is_negative number)) }
{
    if number < 0 {
        text.push(b'-')?;
    }
    Ok(())
}

// Appends the digits of a size, with a point before the last ones.
fn push_pointed(digits: usize, size: &[u8], text: &mut Vec<u8>) -> Result<(), AllocError>
    ensures { OnOk result (text.new.items ≡ text.old.items ++ pointed digits size.now) }
{
    if digits == 0 {
        return text.extend_from_slice(size);
    }
    let whole = size.len().saturating_sub(digits);
    push_whole(&size[..whole], text)?;
    text.push(b'.')?;
    push_zeros(digits.saturating_sub(size.len()), text)?;
    text.extend_from_slice(&size[whole..])
}

fn push_whole(size: &[u8], text: &mut Vec<u8>) -> Result<(), AllocError>
    ensures { OnOk result (text.new.items ≡ text.old.items ++ or_zero size.now) }
{
    if size.is_empty() {
        return text.extend_from_slice(b"0");
    }
    text.extend_from_slice(size)
}

fn push_zeros(count: usize, text: &mut Vec<u8>) -> Result<(), AllocError>
    ensures { OnOk result (text.new.items ≡ text.old.items ++ replicate count 48) }
{
    'zeros: for _ in 0..count {
        text.push(b'0')?;
    }
    Ok(())
}
