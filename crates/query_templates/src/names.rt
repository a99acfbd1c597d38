//! Names in a text, by their places.
ghost use Rattle.std.specs.Prelude.{◌≡◌};
ghost use Rattle.std.specs.Option.{option_copied};
ghost use Rattle.query_templates.specs.Names.{is_among, is_named, part_at, same_name};

use language_base::Span;

/// The bytes at a place, if the text has it.
pub(crate) fn part_at(text: &[u8], place: Span) -> Option<&[u8]>
    ensures { option_copied result ≡ part_at text.now place }
{
    let (from, to) = (place.from as usize, place.to as usize);
    if from <= to && to <= text.len() {
        Some(&text[from..to])
    } else {
        None
    }
}

pub(crate) fn is_named(text: &[u8], place: Span, name: &[u8]) -> bool
    ensures { result ≡ is_named text.now place name.now }
{
    match part_at(text, place) {
        Some(bytes) => bytes == name,
        None => false,
    }
}

pub(crate) fn same_name(text: &[u8], one: Span, other: Span) -> bool
    ensures { result ≡ same_name text.now one other }
{
    match part_at(text, one) {
        Some(bytes) => is_named(text, other, bytes),
        None => false,
    }
}

pub(crate) fn is_among(text: &[u8], names: &[Span], place: Span) -> bool
    ensures { result ≡ is_among text.now names.now place }
{
    names.iter().any(|name| same_name(text, *name, place))
}
