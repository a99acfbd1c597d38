//! Which words are in a rate, by its parts.

use crate::places::{PLACES, Places};
use item_schema::Item;
use predicates::{Pred, holds};
use rate_expr::Rate;

/// Whether the word, of at most six items, is in the rate.
pub(crate) fn contains(rate: &Rate, word: &[Item]) -> bool {
    match u32::try_from(word.len()) {
        Ok(end) => ends(rate, word, Places::at(0)).has(end),
        Err(_) => false,
    }
}

/// Where words of the rate end that begin at one of the places.
fn ends(rate: &Rate, word: &[Item], starts: Places) -> Places {
    match rate {
        Rate::Empty => starts,
        Rate::One(test) => met(test, word, starts).moved_on(),
        Rate::Seq(first, second) => ends(second, word, ends(first, word, starts)),
        Rate::Alt(first, second) => ends(first, word, starts).or(ends(second, word, starts)),
        Rate::Star(inner) => {
            let mut reached = starts;
            for _ in word {
                reached = reached.or(ends(inner, word, reached));
            }
            reached
        }
    }
}

/// Those of the places after which an item comes that meets the test.
fn met(test: &Pred, word: &[Item], starts: Places) -> Places {
    let mut met = Places::NONE;
    for (place, item) in (0..PLACES).zip(word) {
        if starts.has(place) && holds(test, item) {
            met = met.or(Places::at(place));
        }
    }
    met
}
