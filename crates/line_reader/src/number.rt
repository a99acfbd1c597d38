//! Numbers as the fields of a line write them.
ghost use Rattle.std.specs.Prelude.{◌≡◌, ◌≤◌, ℕ, List, min, true, false, MatchOption};
ghost use Rattle.std.specs.Str.Parse.{without_leading_sign, digits_value_after};
ghost use Rattle.line_reader.specs.Decimals.{KeepsDecimal};
ghost use Rattle.line_reader.specs.Reading.{field_of, fraction_of, is_decimal, is_numeral, signed};
ghost use Rattle.line_reader.specs.Reading.{stored, units, whole_of};

use crate::Cause;
use crate::cut::cut_at;
use item_schema::Kind;
use value_ops::Field;

/// The field of an `Int` column.
#[inline]
pub(crate) fn int_field(text: &[u8]) -> Result<Field, Cause>
    ensures { result ≡ field_of Kind.Int text.now }
{
    match size_after(0, without_sign(text)) {
        Some(size) => stored(text, size),
        None => Err(Cause::Number),
    }
}

/// The field of a `Fixed` column.
pub(crate) fn fixed_field(places: u8, text: &[u8]) -> Result<Field, Cause>
    ensures { result ≡ field_of (Kind.Fixed places) text.now }
{
    let Some(decimal) = decimal_of(text) else {
        return Err(Cause::Number);
    };
    if decimal.places > usize::from(places) {
        return Err(Cause::Digits);
    }
    stored(text, units(places, decimal))
}

// A decimal number: what its digits write without the point, or the greatest of 64 bits, and how
// many of them stand after it.
#[derive(Clone, Copy)]
struct Decimal {
    size: u64,
    places: usize,
}

fn without_sign(text: &[u8]) -> &[u8]
    ensures { result.now ≡ without_leading_sign text.now }
{
    match text.first() {
        Some(b'+' | b'-') => &text[1..],
        _ => text,
    }
}

// What the text writes after its sign, if it is a decimal number.
#[tactic(auto, using(crate::proofs::Cuts::nothing_after))]
fn decimal_of(text: &[u8]) -> Option<Decimal>
    ensures { MatchOption result (is_decimal text.now ≡ false) (λ decimal.
        (is_decimal text.now ≡ true) × KeepsDecimal text.now decimal) }
{
    let (whole, fraction) = cut_at(b'.', without_sign(text));
    let size = size_after(0, whole)?;
    let Some(fraction) = fraction else {
        return Some(Decimal { size, places: 0 });
    };
    Some(Decimal {
        size: size_after(size, fraction)?,
        places: fraction.len(),
    })
}

// The number that a numeral writes after the digits of another, or the greatest of 64 bits.
#[inline]
fn size_after(size: u64, digits: &[u8]) -> Option<u64>
    ensures { MatchOption result (is_numeral digits.now ≡ false) (λ after.
        (is_numeral digits.now ≡ true) × ((exact : ℕ) → size ≡ min exact u64.MAX
        → after ≡ min (digits_value_after 10 exact digits.now) u64.MAX)) }
{
    if digits.is_empty() {
        return None;
    }
    let mut after = size;
    for digit in digits {
        if !digit.is_ascii_digit() {
            return None;
        }
        after = after
            .saturating_mul(10)
            .saturating_add(u64::from(*digit - b'0'));
    }
    Some(after)
}

// The number times ten for each place that it has less, or the greatest of 64 bits.
fn units(places: u8, decimal: Decimal) -> u64
    requires { decimal.places ≤ places }
    ensures { (text : List ℕ) → KeepsDecimal text decimal
        → result ≡ min (units places (whole_of text) (fraction_of text)) u64.MAX }
{
    let zeros = u32::from(places) - decimal.places as u32;
    decimal.size.saturating_mul(10u64.saturating_pow(zeros))
}

// The number of this size with the sign that the text begins with.
fn stored(text: &[u8], size: u64) -> Result<Field, Cause>
    ensures { (exact : ℕ) → size ≡ min exact u64.MAX → result ≡ stored (signed text.now exact) }
{
    let number = match text.first() {
        Some(b'-') => 0i64.checked_sub_unsigned(size),
        _ => i64::try_from(size).ok(),
    };
    number.map(Field::Int).ok_or(Cause::Range)
}
