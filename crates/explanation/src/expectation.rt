//! What has to stand at a place of a text.
ghost use Rattle.std.specs.Prelude.{◌≡◌};
ghost use Rattle.query_forms.specs.Forms.{places_of};
ghost use Rattle.explanation.specs.Standing.{argument_in, argument_of, place_or, standing_at};
ghost use Rattle.explanation.specs.Standing.{standing_in, standing_of, top_argument};

use crate::calls::{call_at, level_of};
use place_in_text::bytes_between;
use query_forms::{TermPlace, places_of};

/// What has to stand at a place.
#[derive(Clone, Copy, Debug, PartialEq, Eq)]
pub(crate) enum Standing {
    /// A stream, a let or a main query.
    Top,
    /// An argument, by its place in a call.
    In(TermPlace),
    /// Nothing that is known, since no call around it has a form.
    Nothing,
}

/// What has to stand at a place of the text.
pub(crate) fn standing_at(text: &[u8], place: usize) -> Standing
    ensures { result ≡ standing_at text.now place }
{
    let before = bytes_between(text, 0, place);
    standing_in(before, level_of(before))
}

// What has to stand after the text, by the calls at the first levels alone.
fn standing_in(text: &[u8], levels: usize) -> Standing
    ensures { result ≡ standing_in text.now levels }
{
    let mut standing = Standing::Top;
    'levels: for level in 0..levels {
        let call = call_at(text, level + 1);
        let head = bytes_between(text, call.head.from, call.head.to);
        standing = argument_of(standing, head, call.argument);
    }
    standing
}

// What has to stand as this argument of a call with this head, given what the call has to be.
fn argument_of(standing: Standing, head: &[u8], argument: usize) -> Standing
    ensures { result ≡ argument_of standing head.now argument }
{
    match standing {
        Standing::Top => top_argument(head, argument),
        Standing::In(place) => {
            let one = argument_in(place, head, 1, argument);
            let two = argument_in(place, head, 2, argument);
            let three = argument_in(place, head, 3, argument);
            let four = argument_in(place, head, 4, argument);
            standing_of(place_or(place_or(one, two), place_or(three, four)))
        }
        Standing::Nothing => Standing::Nothing,
    }
}

fn top_argument(head: &[u8], argument: usize) -> Standing
    ensures { result ≡ top_argument head.now argument }
{
    if head == b"stream".as_slice() {
        Standing::In(if argument == 0 {
            TermPlace::Mode
        } else {
            TermPlace::Column
        })
    } else if head == b"let".as_slice() && argument == 0 {
        Standing::In(TermPlace::Name)
    } else {
        Standing::In(TermPlace::Query)
    }
}

// The place of an argument in the form with `count` arguments, if there is one.
fn argument_in(place: TermPlace, head: &[u8], count: usize, argument: usize) -> Option<TermPlace>
    ensures { result ≡ argument_in (places_of place head.now count) argument }
{
    match places_of(place, head, count) {
        Some(places) => places.get(argument).copied(),
        None => None,
    }
}

fn place_or(place: Option<TermPlace>, other: Option<TermPlace>) -> Option<TermPlace>
    ensures { result ≡ place_or place other }
{
    place.or(other)
}

fn standing_of(place: Option<TermPlace>) -> Standing
    ensures { result ≡ standing_of place }
{
    match place {
        Some(place) => Standing::In(place),
        None => Standing::Nothing,
    }
}
