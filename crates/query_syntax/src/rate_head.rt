//! The calls that are rates, by their head words.
ghost use Rattle.std.specs.Prelude.{◌≡◌};
ghost use Rattle.query_forms.specs.declared.term_place.TermPlace.TheVariants as place;
ghost use Rattle.query_syntax.specs.Fits.{AllFit, HasForm};
ghost use Rattle.query_syntax.specs.RateHeads.{rate_places, rate_word, rates};
ghost use Rattle.query_syntax.specs.Rows.{head_in};

use crate::Join;
use crate::head_table::{Row, head_in};
use query_parser::Term;

/// A call that is a rate.
#[derive(Clone, Copy)]
pub(crate) enum RateHead {
    Item,
    Joined(Join),
    Star,
}

const RATES: &[Row<RateHead>] = &[
    Row(RateHead::Item, b"item", 1),
    Row(RateHead::Joined(Join::Seq), b"seq", 2),
    Row(RateHead::Joined(Join::Alt), b"alt", 2),
    Row(RateHead::Star, b"star", 1),
];

fn rate_named(word: &[u8], count: usize) -> Option<RateHead>
    ensures { result ≡ head_in rates word.now count }
{
    head_in(RATES, word, count)
}

pub(crate) fn rate_head(word: &[u8], arguments: &[Term]) -> RateHead
    requires { HasForm place.Rate word.now arguments.now }
    ensures word { word.now ≡ rate_word result }
    ensures places { AllFit (rate_places result) arguments.now }
{
    match rate_named(word, arguments.len()) {
        Some(head) => head,
        None => unreachable!(),
    }
}
