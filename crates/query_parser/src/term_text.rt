//! The canonical text of terms.
ghost use Rattle.std.specs.Prelude.{◌≡◌, ◌++◌, OnOk};
ghost use Rattle.query_parser.specs.Plain.{terms_of};
ghost use Rattle.query_parser.specs.Printing.{arguments_text, file_text};
ghost use Rattle.query_parser.specs.TermText.{term_text};

use crate::Term;
use crate::string_text::print_string;
use itoa::Buffer;
use std::alloc::AllocError;

/// Appends top terms, each on a line of its own.
pub(crate) fn print_terms(terms: &[Term], text: &mut Vec<u8>) -> Result<(), AllocError>
    ensures { OnOk result (text.new.items ≡ text.old.items ++ file_text (terms_of terms.now)) }
{
    'terms: for term in terms {
        print_term(term, text)?;
        text.extend_from_slice(b"\n")?;
    }
    Ok(())
}

#[cycle(print)]
#[tactic(auto, using(crate::proofs::Printed::leaf_texts))]
fn print_term(term: &Term, text: &mut Vec<u8>) -> Result<(), AllocError>
    ensures { OnOk result (text.new.items ≡ text.old.items ++ term_text term.now) }
{
    match term {
        Term::Word(word, _) => text.extend_from_slice(word.as_slice()),
        Term::Number(value, _) => text.extend_from_slice(Buffer::new().format(*value).as_bytes()),
        Term::Text(bytes, _) => print_string(bytes.as_slice(), text),
        Term::Call(head, arguments, _) => {
            text.extend_from_slice(head.as_slice())?;
            text.extend_from_slice(b"(")?;
            print_arguments(arguments.as_slice(), text)?;
            text.extend_from_slice(b")")
        }
    }
}

#[cycle(print)]
fn print_arguments(arguments: &[Term], text: &mut Vec<u8>) -> Result<(), AllocError>
    ensures { OnOk result (text.new.items
        ≡ text.old.items ++ arguments_text (terms_of arguments.now)) }
{
    let [first, others @ ..] = arguments else {
        return Ok(());
    };
    print_term(first, text)?;
    'others: for argument in others {
        text.extend_from_slice(b", ")?;
        print_term(argument, text)?;
    }
    Ok(())
}
