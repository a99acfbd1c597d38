//! Queries from the terms that write them.
ghost use Rattle.std.specs.Prelude.{◌≡◌, IfOk};
ghost use Rattle.query_forms.specs.declared.term_place.TermPlace.TheVariants as place;
ghost use Rattle.query_forms.specs.Terms.{Terms};
ghost use Rattle.query_parser.specs.Plain.{term_before};
ghost use Rattle.query_syntax.specs.Calls.{IsCall};
ghost use Rattle.query_syntax.specs.Fits.{Fits, HasForm};
ghost use Rattle.query_syntax.specs.Plain.{plain_query};
ghost use Rattle.query_syntax.specs.Written.{query_before};

use crate::query_calls::{
    apply_of, atom_of, collect_of, combine_of, compose_of, eps_of, iter_of, or_of, split_of,
};
use crate::query_head::{QueryHead, query_head};
use crate::{Name, Query};
use language_base::Span;
use query_parser::Term;
use std::alloc::{AllocError, Global};

#[cycle(read_query)]
fn query_of(alloc: Global, term: &Term) -> Result<Query, AllocError>
    requires { Fits place.Query term.now }
    ensures { IfOk result (λ query. (rest : Terms)
        → term_before term.now rest ≡ query_before (plain_query query) rest) }
{
    match term {
        Term::Word(bytes, span) => Ok(Query::Name(Name {
            bytes: bytes.try_copy(alloc)?,
            span: *span,
        })),
        Term::Call(word, arguments, span) => {
            query_call(alloc, word.as_slice(), arguments.as_slice(), *span)
        }
        Term::Number(_, _) | Term::Text(_, _) => unreachable!(),
    }
}

#[cycle(read_query)]
fn query_call(
    alloc: Global,
    word: &[u8],
    arguments: &[Term],
    span: Span,
) -> Result<Query, AllocError>
    requires { HasForm place.Query word.now arguments.now }
    ensures { IfOk result (λ query.
        IsCall word.now arguments.now span (query_before (plain_query query))) }
{
    match query_head(word, arguments) {
        QueryHead::Atom => atom_of(alloc, arguments, span),
        QueryHead::Eps => Ok(eps_of(arguments, span)),
        QueryHead::Or => or_of(alloc, arguments, span),
        QueryHead::Split => split_of(alloc, arguments, span),
        QueryHead::Iter => iter_of(alloc, arguments, span),
        QueryHead::Combine => combine_of(alloc, arguments, span),
        QueryHead::Apply => apply_of(alloc, arguments, span),
        QueryHead::Compose => compose_of(alloc, arguments, span),
        QueryHead::Collect => collect_of(alloc, arguments, span),
    }
}

#[cycle(read_query)]
pub(crate) fn boxed_query(alloc: Global, term: &Term) -> Result<Box<Query>, AllocError>
    requires { Fits place.Query term.now }
    ensures { IfOk result (λ boxed. (rest : Terms)
        → term_before term.now rest ≡ query_before (plain_query boxed.value) rest) }
{
    let query = query_of(alloc, term)?;
    Ok(Box::new(alloc, query)?)
}
