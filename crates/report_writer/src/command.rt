//! The texts of the commands that write one line.
ghost use Rattle.std.specs.Option.{option_copied};
ghost use Rattle.std.specs.Prelude.{◌≡◌, ◌++◌, IfOk, OnOk};
ghost use Rattle.report_writer.specs.Texts.{bound_text, check_text, drill_text, last_text};

use crate::answer::push_value;
use language_base::Bytes;
use std::alloc::{AllocError, Global};
use value_ops::Value;

/// That a query is accepted.
pub fn check_text(alloc: Global) -> Result<Bytes, AllocError>
    ensures { IfOk result (λ text. text ≡ check_text) }
{
    Bytes::from_slice(alloc, b"ok\n")
}

/// How many starts of a query may live at one time, and how much is kept for them.
pub fn bound_text(alloc: Global, places: u32, slots: u32) -> Result<Bytes, AllocError>
    ensures { IfOk result (λ text. text ≡ bound_text places slots) }
{
    let text = format!(in alloc; "places {places} slots {slots}\n")?;
    Ok(Bytes::from_vec(text.into_bytes()))
}

/// How many items there were, after how many of them there was a value, and the answer
/// after the last.
pub fn drill_text(
    alloc: Global,
    items: u32,
    defined: u32,
    last: Option<&Value>,
) -> Result<Bytes, AllocError>
    ensures { IfOk result (λ text. text ≡ drill_text items defined (option_copied last.entry)) }
{
    let mut text = format!(in alloc; "items {items} defined {defined} last ")?.into_bytes();
    push_last(items, last, &mut text)?;
    text.push(b'\n')?;
    Ok(Bytes::from_vec(text))
}

// Appends the answer after the last item, if there is one.
fn push_last(items: u32, last: Option<&Value>, text: &mut Vec<u8>) -> Result<(), AllocError>
    ensures { OnOk result (
        text.new.items ≡ text.old.items ++ last_text items (option_copied last.entry)) }
{
    match last {
        _ if items == 0 => text.extend_from_slice(b"none"),
        Some(value) => push_value(value, text),
        None => text.extend_from_slice(b"undefined"),
    }
}
