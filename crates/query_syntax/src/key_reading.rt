//! Keys from the terms that write them.
ghost use Rattle.std.specs.Prelude.{◌≡◌, IfOk, length};
ghost use Rattle.std.specs.List.{All};
ghost use Rattle.query_forms.specs.declared.term_place.TermPlace.TheVariants as place;
ghost use Rattle.query_forms.specs.Terms.{Terms};
ghost use Rattle.query_parser.specs.Plain.{term_before, terms_of};
ghost use Rattle.query_syntax.specs.Fits.{Fits};
ghost use Rattle.query_syntax.specs.Counts.{IsNameCount};
ghost use Rattle.query_syntax.specs.Written.{key_before, names_terms};

use crate::leaf_reading::name_of;
use crate::{Key, KeyNames, Name};
use query_parser::Term;
use std::alloc::{AllocError, Global};

pub(crate) fn boxed_key(alloc: Global, term: &Term) -> Result<Box<Key>, AllocError>
    requires { Fits place.Key term.now }
    ensures { IfOk result (λ boxed. (rest : Terms)
        → term_before term.now rest ≡ key_before boxed.value rest) }
{
    let key = key_of(alloc, term)?;
    Ok(Box::new(alloc, key)?)
}

fn key_of(alloc: Global, term: &Term) -> Result<Key, AllocError>
    requires { Fits place.Key term.now }
    ensures { IfOk result (λ key. (rest : Terms)
        → term_before term.now rest ≡ key_before key rest) }
{
    match term {
        Term::Word(bytes, span) => Ok(Key::Column(Name {
            bytes: bytes.try_copy(alloc)?,
            span: *span,
        })),
        Term::Call(_, arguments, span) => {
            let names = names_of(alloc, arguments.as_slice())?;
            Ok(Key::Columns(names, *span))
        }
        Term::Number(_, _) | Term::Text(_, _) => unreachable!(),
    }
}

fn names_of(alloc: Global, arguments: &[Term]) -> Result<KeyNames, AllocError>
    requires fit { All (Fits place.Name) arguments.now }
    requires count { IsNameCount (length arguments.now) }
    ensures { IfOk result (λ names. terms_of arguments.now ≡ names_terms names) }
{
    let mut names = Vec::new(alloc);
    'arguments: for argument in arguments {
        names.push(name_of(alloc, argument)?)?;
    }
    Ok(KeyNames::of(names))
}
