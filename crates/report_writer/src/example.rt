//! The text of a word and of two readings of it.
ghost use Rattle.std.specs.Prelude.{◌≡◌, ◌++◌, IfOk, OnOk, codes, decimal};
ghost use Rattle.std.specs.List.{flat_map, join_by};
ghost use Rattle.report_writer.specs.Examples.{cuts_line, example_text, field_text, item_line};

use crate::answer::{push_scalar, push_value};
use crate::key_text::push_key;
use crate::skip::push_number;
use item_schema::Item;
use language_base::Bytes;
use std::alloc::{AllocError, Global};
use value_ops::{Field, Scalar};

/// A line for each item of a word, and a line for each of two readings of it, with the numbers of
/// items before each place where a piece of the reading begins or ends.
pub fn example_text(
    alloc: Global,
    items: &[Item],
    first: &[u32],
    second: &[u32],
) -> Result<Bytes, AllocError>
    ensures { IfOk result (λ text. text ≡ example_text items.now first.now second.now) }
{
    let mut text = Vec::new(alloc);
    push_items(items, &mut text)?;
    push_cuts("first", first, &mut text)?;
    push_cuts("second", second, &mut text)?;
    Ok(Bytes::from_vec(text))
}

fn push_items(items: &[Item], text: &mut Vec<u8>) -> Result<(), AllocError>
    ensures { OnOk result (text.new.items ≡ text.old.items ++ flat_map item_line items.now) }
{
    'items: for item in items {
        push_item(item, text)?;
    }
    Ok(())
}

fn push_item(item: &Item, text: &mut Vec<u8>) -> Result<(), AllocError>
    ensures { OnOk result (text.new.items ≡ text.old.items ++ item_line item.now) }
{
    text.extend_from_slice(b"item ")?;
    push_fields(item.fields(), text)?;
    text.extend_from_slice(b"\n")
}

fn push_fields(fields: &[Field], text: &mut Vec<u8>) -> Result<(), AllocError>
    ensures { OnOk result (
        text.new.items ≡ text.old.items ++ join_by field_text (codes ",") fields.now) }
{
    let [first, others @ ..] = fields else {
        return Ok(());
    };
    push_field(first, text)?;
    'others: for field in others {
        text.extend_from_slice(b",")?;
        push_field(field, text)?;
    }
    Ok(())
}

fn push_field(field: &Field, text: &mut Vec<u8>) -> Result<(), AllocError>
    ensures { OnOk result (text.new.items ≡ text.old.items ++ field_text field.now) }
{
    match field {
        Field::Int(number) => push_scalar(Scalar::Number(*number), text),
        Field::Text(bytes) => push_key(bytes.as_slice(), text),
        Field::Val(value) => push_value(value, text),
    }
}

fn push_cuts(name: &str, cuts: &[u32], text: &mut Vec<u8>) -> Result<(), AllocError>
    ensures { OnOk result (text.new.items ≡ text.old.items ++ cuts_line name.now cuts.now) }
{
    text.extend_from_slice(name.as_bytes())?;
    text.extend_from_slice(b" ")?;
    push_numbers(cuts, text)?;
    text.extend_from_slice(b"\n")
}

fn push_numbers(numbers: &[u32], text: &mut Vec<u8>) -> Result<(), AllocError>
    ensures { OnOk result (
        text.new.items ≡ text.old.items ++ join_by decimal (codes " ") numbers.now) }
{
    let [first, others @ ..] = numbers else {
        return Ok(());
    };
    push_number(*first, text)?;
    'others: for number in others {
        text.extend_from_slice(b" ")?;
        push_number(*number, text)?;
    }
    Ok(())
}
