//! In which units the answers of a query are.
ghost use Rattle.std.specs.Prelude.{◌≡◌, ◌<◌, ◌^◌, IfOk, Some, None};
ghost use Rattle.query_model.specs.Monitors.{monitor_of};
ghost use Rattle.view_run.specs.Units.{digits_for, digits_of, units_of, units_text};

use answer_units::{Units, answer_units};
use itoa::Buffer;
use language_base::Bytes;
use query_model::Checked;
use std::alloc::{AllocError, Global};

/// How many digits after the point the answers are shown with: those that are asked for, or else
/// those of their units.
pub fn digits_for(alloc: Global, asked: Option<u8>, checked: &Checked) -> Result<u8, AllocError>
    ensures { IfOk result (λ digits. digits ≡ digits_for asked (monitor_of checked.now)) }
{
    match asked {
        Some(digits) => Ok(digits),
        None => Ok(digits_of(answer_units(alloc, checked)?)),
    }
}

fn digits_of(units: Units) -> u8
    ensures { result ≡ digits_of units }
{
    match units {
        Units::Digits(digits) => digits,
        Units::Whole | Units::Mixed => 0,
    }
}

/// The line that says the units.
pub fn units_line(alloc: Global, checked: &Checked) -> Result<Bytes, AllocError>
    ensures { IfOk result (λ line. line ≡ units_text (units_of (monitor_of checked.now))) }
{
    match answer_units(alloc, checked)? {
        Units::Digits(digits) => digits_line(alloc, digits),
        Units::Whole => Bytes::from_slice(alloc, b"whole\n"),
        Units::Mixed => Bytes::from_slice(alloc, b"mixed\n"),
    }
}

fn digits_line(alloc: Global, digits: u8) -> Result<Bytes, AllocError>
    ensures { IfOk result (λ line. line ≡ units_text (Units.Digits digits)) }
{
    let mut buffer = Buffer::new();
    let mut line = Vec::from_slice(alloc, b"digits ")?;
    line.extend_from_slice(buffer.format(digits).as_bytes())?;
    line.extend_from_slice(b"\n")?;
    Ok(Bytes::from_vec(line))
}
