//! The calls that are predicates, by their head words.
ghost use Rattle.std.specs.Prelude.{◌≡◌};
ghost use Rattle.query_forms.specs.declared.term_place.TermPlace.TheVariants as place;
ghost use Rattle.query_syntax.specs.Fits.{AllFit, HasForm};
ghost use Rattle.query_syntax.specs.PredicateHeads.{predicate_places, predicate_word, predicates};
ghost use Rattle.query_syntax.specs.Rows.{head_in};

use crate::head_table::{Row, head_in};
use crate::{Connective, Equality, Order};
use query_parser::Term;

/// A call that is a predicate.
#[derive(Clone, Copy)]
pub(crate) enum PredicateHead {
    Equality(Equality),
    Order(Order),
    Between,
    IsNum,
    Joined(Connective),
    Not,
}

const PREDICATES: &[Row<PredicateHead>] = &[
    Row(PredicateHead::Equality(Equality::Eq), b"eq", 2),
    Row(PredicateHead::Equality(Equality::Ne), b"ne", 2),
    Row(PredicateHead::Order(Order::Lt), b"lt", 2),
    Row(PredicateHead::Order(Order::Le), b"le", 2),
    Row(PredicateHead::Order(Order::Gt), b"gt", 2),
    Row(PredicateHead::Order(Order::Ge), b"ge", 2),
    Row(PredicateHead::Between, b"between", 3),
    Row(PredicateHead::IsNum, b"isnum", 1),
    Row(PredicateHead::Joined(Connective::And), b"and", 2),
    Row(PredicateHead::Joined(Connective::Or), b"or", 2),
    Row(PredicateHead::Not, b"not", 1),
];

fn predicate_named(word: &[u8], count: usize) -> Option<PredicateHead>
    ensures { result ≡ head_in predicates word.now count }
{
    head_in(PREDICATES, word, count)
}

pub(crate) fn predicate_head(word: &[u8], arguments: &[Term]) -> PredicateHead
    requires { HasForm place.Pred word.now arguments.now }
    ensures word { word.now ≡ predicate_word result }
    ensures places { AllFit (predicate_places result) arguments.now }
{
    match predicate_named(word, arguments.len()) {
        Some(head) => head,
        None => unreachable!(),
    }
}
