//! The calls that are queries, by their head words.
ghost use Rattle.std.specs.Prelude.{◌≡◌};
ghost use Rattle.query_forms.specs.declared.term_place.TermPlace.TheVariants as place;
ghost use Rattle.query_syntax.specs.Fits.{AllFit, HasForm};
ghost use Rattle.query_syntax.specs.QueryHeads.{queries, query_places, query_word};
ghost use Rattle.query_syntax.specs.Rows.{head_in};

use crate::head_table::{Row, head_in};
use query_parser::Term;

/// A call that is a query.
#[derive(Clone, Copy)]
pub(crate) enum QueryHead {
    Atom,
    Eps,
    Or,
    Split,
    Iter,
    Combine,
    Apply,
    Compose,
    Collect,
}

const QUERIES: &[Row<QueryHead>] = &[
    Row(QueryHead::Atom, b"atom", 2),
    Row(QueryHead::Eps, b"eps", 1),
    Row(QueryHead::Or, b"or", 2),
    Row(QueryHead::Split, b"split", 3),
    Row(QueryHead::Iter, b"iter", 3),
    Row(QueryHead::Combine, b"combine", 3),
    Row(QueryHead::Apply, b"apply", 2),
    Row(QueryHead::Compose, b"compose", 2),
    Row(QueryHead::Collect, b"collect", 4),
];

fn query_named(word: &[u8], count: usize) -> Option<QueryHead>
    ensures { result ≡ head_in queries word.now count }
{
    head_in(QUERIES, word, count)
}

pub(crate) fn query_head(word: &[u8], arguments: &[Term]) -> QueryHead
    requires { HasForm place.Query word.now arguments.now }
    ensures word { word.now ≡ query_word result }
    ensures places { AllFit (query_places result) arguments.now }
{
    match query_named(word, arguments.len()) {
        Some(head) => head,
        None => unreachable!(),
    }
}
