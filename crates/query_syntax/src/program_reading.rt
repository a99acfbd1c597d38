//! A whole file from its terms.
ghost use Rattle.std.specs.Prelude.{◌≡◌, [], ◌∷◌, All, IfOk};
ghost use Rattle.query_forms.specs.declared.term_place.TermPlace.TheVariants as place;
ghost use Rattle.query_forms.specs.Terms.{Terms, none};
ghost use Rattle.query_parser.specs.Plain.{term_before, terms_of};
ghost use Rattle.query_syntax.specs.Files.{all_before, let_before, main_before, program_terms};
ghost use Rattle.query_syntax.specs.Fits.{AllFit};
ghost use Rattle.query_syntax.specs.Plain.{plain_let, plain_main, plain_program, plain_query};
ghost use Rattle.query_syntax.specs.Tops.{AreTops, FitsLet, FitsMain};
ghost use Rattle.query_syntax.specs.Written.{name_before, query_before};

use crate::leaf_reading::name_of;
use crate::query_reading::boxed_query;
use crate::stream_reading::stream_of;
use crate::{Let, Main, Name, Program, Query};
use query_parser::Term;
use std::alloc::{AllocError, Global};

pub(crate) fn program_of(alloc: Global, terms: &[Term]) -> Result<Program, AllocError>
    requires { AreTops terms.now }
    ensures { IfOk result (λ program. terms_of terms.now ≡ program_terms (plain_program program)) }
{
    let [stream, body @ ..] = terms else {
        unreachable!();
    };
    let [lets @ .., main] = body else {
        unreachable!();
    };
    let stream = stream_of(alloc, stream)?;
    let lets = lets_of(alloc, lets)?;
    let main = main_of(alloc, main)?;
    Ok(Program { stream, lets, main })
}

fn lets_of(alloc: Global, terms: &[Term]) -> Result<Vec<Let>, AllocError>
    requires { All FitsLet terms.now }
    ensures { IfOk result (λ lets. (rest : Terms)
        → all_before term_before terms.now rest
        ≡ all_before (λ one. let_before (plain_let one)) lets.items rest) }
{
    let mut lets = Vec::new(alloc);
    'terms: for term in terms {
        lets.push(let_of(alloc, term)?)?;
    }
    Ok(lets)
}

fn let_of(alloc: Global, term: &Term) -> Result<Let, AllocError>
    requires { FitsLet term.now }
    ensures { IfOk result (λ one. (rest : Terms)
        → term_before term.now rest ≡ let_before (plain_let one) rest) }
{
    match term {
        Term::Call(_, arguments, span) => {
            let (name, query) = name_and_query(alloc, arguments.as_slice())?;
            Ok(Let {
                name,
                query,
                span: *span,
            })
        }
        Term::Word(_, _) | Term::Number(_, _) | Term::Text(_, _) => unreachable!(),
    }
}

fn name_and_query(alloc: Global, arguments: &[Term]) -> Result<(Name, Box<Query>), AllocError>
    requires { AllFit (place.Name ∷ place.Query ∷ []) arguments.now }
    ensures { IfOk result (λ parts. terms_of arguments.now
        ≡ name_before parts.0 (query_before (plain_query parts.1.value) none)) }
{
    let [name, query] = arguments else {
        unreachable!();
    };
    Ok((name_of(alloc, name)?, boxed_query(alloc, query)?))
}

fn main_of(alloc: Global, term: &Term) -> Result<Main, AllocError>
    requires { FitsMain term.now }
    ensures { IfOk result (λ main. (rest : Terms)
        → term_before term.now rest ≡ main_before (plain_main main) rest) }
{
    match term {
        Term::Call(_, arguments, span) => {
            let query = only_query(alloc, arguments.as_slice())?;
            Ok(Main { query, span: *span })
        }
        Term::Word(_, _) | Term::Number(_, _) | Term::Text(_, _) => unreachable!(),
    }
}

fn only_query(alloc: Global, arguments: &[Term]) -> Result<Box<Query>, AllocError>
    requires { AllFit (place.Query ∷ []) arguments.now }
    ensures { IfOk result (λ query. terms_of arguments.now
        ≡ query_before (plain_query query.value) none) }
{
    let [query] = arguments else {
        unreachable!();
    };
    boxed_query(alloc, query)
}
