//! The calls that have a form of their place.
ghost use Rattle.std.specs.Prelude.{◌≡◌, map, MatchOption, None, Some};
ghost use Rattle.query_forms.specs.Forms.{places_in, places_of};
ghost use Rattle.query_forms.specs.Shown.{shown};

use crate::form::Form;
use crate::table::forms_at;
use crate::term_place::TermPlace;

/// The places of the arguments of a call with this head word and this many of them.
pub fn places_of(place: TermPlace, head: &[u8], count: usize) -> Option<&'static [TermPlace]>
    ensures { MatchOption result (places_of place head.now count ≡ None)
        (λ places. places_of place head.now count ≡ Some places.now) }
{
    places_in(forms_at(place), head, count)
}

fn places_in(forms: &'static [Form], head: &[u8], count: usize) -> Option<&'static [TermPlace]>
    ensures { MatchOption result (places_in (map shown forms.now) head.now count ≡ None)
        (λ places. places_in (map shown forms.now) head.now count ≡ Some places.now) }
{
    'forms: for &Form(word, arguments) in forms {
        if word == head && arguments.len() == count {
            return Some(arguments);
        }
    }
    None
}
