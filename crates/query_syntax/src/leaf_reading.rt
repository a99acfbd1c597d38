//! Names, numbers and strings from the terms that write them.
ghost use Rattle.std.specs.Prelude.{◌≡◌, IfOk};
ghost use Rattle.query_forms.specs.declared.term_place.TermPlace.TheVariants as place;
ghost use Rattle.query_forms.specs.Terms.{Terms};
ghost use Rattle.query_parser.specs.Plain.{term_before};
ghost use Rattle.query_syntax.specs.Fits.{Fits};
ghost use Rattle.query_syntax.specs.Written.{index_before, literal_before, name_before};
ghost use Rattle.query_syntax.specs.Written.{number_before, text_before};

use crate::{Index, Literal, Name, Number, Text};
use query_parser::Term;
use std::alloc::{AllocError, Global};

pub(crate) fn name_of(alloc: Global, term: &Term) -> Result<Name, AllocError>
    requires { Fits place.Name term.now }
    ensures { IfOk result (λ name. (rest : Terms)
        → term_before term.now rest ≡ name_before name rest) }
{
    match term {
        Term::Word(bytes, span) => Ok(Name {
            bytes: bytes.try_copy(alloc)?,
            span: *span,
        }),
        Term::Number(_, _) | Term::Text(_, _) | Term::Call(_, _, _) => unreachable!(),
    }
}

pub(crate) fn number_of(term: &Term) -> Number
    requires { Fits place.Number term.now }
    ensures { (rest : Terms) → term_before term.now rest ≡ number_before result rest }
{
    match term {
        Term::Number(value, span) => Number {
            value: *value,
            span: *span,
        },
        Term::Word(_, _) | Term::Text(_, _) | Term::Call(_, _, _) => unreachable!(),
    }
}

pub(crate) fn index_of(term: &Term) -> Index
    requires { Fits place.Index term.now }
    ensures { (rest : Terms) → term_before term.now rest ≡ index_before result rest }
{
    match term {
        Term::Number(value, span) => match u8::try_from(*value) {
            Ok(value) => Index { value, span: *span },
            Err(_) => unreachable!(),
        },
        Term::Word(_, _) | Term::Text(_, _) | Term::Call(_, _, _) => unreachable!(),
    }
}

pub(crate) fn text_of(alloc: Global, term: &Term) -> Result<Text, AllocError>
    requires { Fits place.Text term.now }
    ensures { IfOk result (λ text. (rest : Terms)
        → term_before term.now rest ≡ text_before text rest) }
{
    match term {
        Term::Text(bytes, span) => Ok(Text {
            bytes: bytes.try_copy(alloc)?,
            span: *span,
        }),
        Term::Word(_, _) | Term::Number(_, _) | Term::Call(_, _, _) => unreachable!(),
    }
}

pub(crate) fn literal_of(alloc: Global, term: &Term) -> Result<Literal, AllocError>
    requires { Fits place.Literal term.now }
    ensures { IfOk result (λ literal. (rest : Terms)
        → term_before term.now rest ≡ literal_before literal rest) }
{
    match term {
        Term::Number(value, span) => Ok(Literal::Number(Number {
            value: *value,
            span: *span,
        })),
        Term::Text(bytes, span) => Ok(Literal::Text(Text {
            bytes: bytes.try_copy(alloc)?,
            span: *span,
        })),
        Term::Word(_, _) | Term::Call(_, _, _) => unreachable!(),
    }
}
