//! Whether a part of the text is a place, or contains it.
ghost use Rattle.std.specs.Prelude.{◌≡◌};
ghost use Rattle.explanation.specs.Spots.{has_in, is_at};

use language_base::Span;

pub(crate) fn is_at(part: Span, place: Span) -> bool
    ensures { result ≡ is_at part place }
{
    part.from == place.from && part.to == place.to
}

pub(crate) fn has_in(part: Span, place: Span) -> bool
    ensures { result ≡ has_in part place }
{
    part.from <= place.from && place.to <= part.to
}
