//! A stream from the term that writes it.
ghost use Rattle.std.specs.Prelude.{◌≡◌, ◌≤◌, All, IfOk, codes, length};
ghost use Rattle.query_forms.specs.declared.term_place.TermPlace.TheVariants as place;
ghost use Rattle.query_forms.specs.Terms.{Terms, none};
ghost use Rattle.query_forms.specs.Tops.{stream_places};
ghost use Rattle.query_parser.specs.Plain.{term_before, terms_of};
ghost use Rattle.query_syntax.specs.Files.{all_before, column_before, digits_before, kind_before};
ghost use Rattle.query_syntax.specs.Files.{mode_before, stream_before};
ghost use Rattle.query_syntax.specs.Fits.{AllFit, Fits, HasForm};
ghost use Rattle.query_syntax.specs.Plain.{plain_stream};
ghost use Rattle.query_syntax.specs.Tops.{FitsStream};
ghost use Rattle.query_syntax.specs.Written.{name_before};

use crate::leaf_reading::name_of;
use crate::{Column, Digits, Kind, Mode, Name, Stream};
use query_parser::Term;
use std::alloc::{AllocError, Global};

pub(crate) fn stream_of(alloc: Global, term: &Term) -> Result<Stream, AllocError>
    requires { FitsStream term.now }
    ensures { IfOk result (λ stream. (rest : Terms)
        → term_before term.now rest ≡ stream_before (plain_stream stream) rest) }
{
    match term {
        Term::Call(_, arguments, span) => {
            let (mode, columns) = mode_and_columns(alloc, arguments.as_slice())?;
            Ok(Stream {
                mode,
                columns,
                span: *span,
            })
        }
        Term::Word(_, _) | Term::Number(_, _) | Term::Text(_, _) => unreachable!(),
    }
}

fn mode_and_columns(alloc: Global, arguments: &[Term]) -> Result<(Mode, Vec<Column>), AllocError>
    requires some { 2 ≤ length arguments.now }
    requires fit { AllFit (stream_places (length arguments.now)) arguments.now }
    ensures { IfOk result (λ parts. terms_of arguments.now
        ≡ mode_before parts.0 (all_before column_before parts.1.items none)) }
{
    let [mode, columns @ ..] = arguments else {
        unreachable!();
    };
    let mode = mode_of(mode);
    Ok((mode, columns_of(alloc, columns)?))
}

fn mode_of(term: &Term) -> Mode
    requires { Fits place.Mode term.now }
    ensures { (rest : Terms) → term_before term.now rest ≡ mode_before result rest }
{
    match term {
        Term::Word(bytes, span) => match bytes.as_slice() {
            b"plain" => Mode::Plain(*span),
            b"header" => Mode::Header(*span),
            _ => unreachable!(),
        },
        Term::Number(_, _) | Term::Text(_, _) | Term::Call(_, _, _) => unreachable!(),
    }
}

fn columns_of(alloc: Global, terms: &[Term]) -> Result<Vec<Column>, AllocError>
    requires { All (Fits place.Column) terms.now }
    ensures { IfOk result (λ columns. (rest : Terms)
        → all_before term_before terms.now rest ≡ all_before column_before columns.items rest) }
{
    let mut columns = Vec::new(alloc);
    'terms: for term in terms {
        columns.push(column_of(alloc, term)?)?;
    }
    Ok(columns)
}

fn column_of(alloc: Global, term: &Term) -> Result<Column, AllocError>
    requires { Fits place.Column term.now }
    ensures { IfOk result (λ column. (rest : Terms)
        → term_before term.now rest ≡ column_before column rest) }
{
    match term {
        Term::Call(word, arguments, span) => {
            let (name, kind) = parts_of(alloc, word.as_slice(), arguments.as_slice())?;
            Ok(Column {
                name,
                kind,
                span: *span,
            })
        }
        Term::Word(_, _) | Term::Number(_, _) | Term::Text(_, _) => unreachable!(),
    }
}

fn parts_of(alloc: Global, word: &[u8], arguments: &[Term]) -> Result<(Name, Kind), AllocError>
    requires { HasForm place.Column word.now arguments.now }
    ensures { IfOk result (λ parts. (word.now ≡ codes "col")
        × (terms_of arguments.now ≡ name_before parts.0 (kind_before parts.1 none))) }
{
    let [name, kind] = arguments else {
        unreachable!();
    };
    let kind = kind_of(kind);
    Ok((name_of(alloc, name)?, kind))
}

fn kind_of(term: &Term) -> Kind
    requires { Fits place.Kind term.now }
    ensures { (rest : Terms) → term_before term.now rest ≡ kind_before result rest }
{
    match term {
        Term::Word(bytes, span) => match bytes.as_slice() {
            b"int" => Kind::Int(*span),
            b"text" => Kind::Text(*span),
            _ => unreachable!(),
        },
        Term::Call(word, arguments, span) => {
            let digits = fixed_of(word.as_slice(), arguments.as_slice());
            Kind::Fixed {
                digits,
                span: *span,
            }
        }
        Term::Number(_, _) | Term::Text(_, _) => unreachable!(),
    }
}

fn fixed_of(word: &[u8], arguments: &[Term]) -> Digits
    requires { HasForm place.Kind word.now arguments.now }
    ensures word { word.now ≡ codes "fixed" }
    ensures digits { terms_of arguments.now ≡ digits_before result none }
{
    let [digits] = arguments else {
        unreachable!();
    };
    digits_of(digits)
}

fn digits_of(term: &Term) -> Digits
    requires { Fits place.Digits term.now }
    ensures { (rest : Terms) → term_before term.now rest ≡ digits_before result rest }
{
    match term {
        Term::Number(value, span) => match u8::try_from(*value) {
            Ok(count) => Digits { count, span: *span },
            Err(_) => unreachable!(),
        },
        Term::Word(_, _) | Term::Text(_, _) | Term::Call(_, _, _) => unreachable!(),
    }
}
