//! Rates from the terms that write them.
ghost use Rattle.std.specs.Prelude.{◌≡◌, [], ◌∷◌, IfOk};
ghost use Rattle.query_forms.specs.declared.term_place.TermPlace.TheVariants as place;
ghost use Rattle.query_forms.specs.Terms.{Terms, call, none};
ghost use Rattle.query_parser.specs.Plain.{term_before, terms_of};
ghost use Rattle.query_syntax.specs.Fits.{AllFit, Fits, HasForm};
ghost use Rattle.query_syntax.specs.Plain.{plain_predicate, plain_rate};
ghost use Rattle.query_syntax.specs.Written.{predicate_before, rate_before};

use crate::predicate_reading::predicate_of;
use crate::rate_head::{RateHead, rate_head};
use crate::{Predicate, Rate};
use language_base::Span;
use query_parser::Term;
use std::alloc::{AllocError, Global};

#[cycle(read)]
fn rate_of(alloc: Global, term: &Term) -> Result<Rate, AllocError>
    requires { Fits place.Rate term.now }
    ensures { IfOk result (λ rate. (rest : Terms)
        → term_before term.now rest ≡ rate_before (plain_rate rate) rest) }
{
    match term {
        Term::Word(_, span) => Ok(Rate::Eps(*span)),
        Term::Call(word, arguments, span) => {
            rate_call(alloc, word.as_slice(), arguments.as_slice(), *span)
        }
        Term::Number(_, _) | Term::Text(_, _) => unreachable!(),
    }
}

#[cycle(read)]
fn rate_call(alloc: Global, word: &[u8], arguments: &[Term], span: Span) -> Result<Rate, AllocError>
    requires { HasForm place.Rate word.now arguments.now }
    ensures { IfOk result (λ rate. (rest : Terms) → call word.now (terms_of arguments.now) span rest
        ≡ rate_before (plain_rate rate) rest) }
{
    match rate_head(word, arguments) {
        RateHead::Item => {
            let predicate = item_of(alloc, arguments)?;
            Ok(Rate::Item { predicate, span })
        }
        RateHead::Joined(join) => {
            let (left, right) = operands_of(alloc, arguments)?;
            Ok(Rate::Joined {
                join,
                left,
                right,
                span,
            })
        }
        RateHead::Star => {
            let operand = operand_of(alloc, arguments)?;
            Ok(Rate::Star { operand, span })
        }
    }
}

fn item_of(alloc: Global, arguments: &[Term]) -> Result<Predicate, AllocError>
    requires { AllFit (place.Pred ∷ []) arguments.now }
    ensures { IfOk result (λ predicate. terms_of arguments.now
        ≡ predicate_before (plain_predicate predicate) none) }
{
    let [predicate] = arguments else {
        unreachable!();
    };
    predicate_of(alloc, predicate)
}

#[cycle(read)]
pub(crate) fn boxed_rate(alloc: Global, term: &Term) -> Result<Box<Rate>, AllocError>
    requires { Fits place.Rate term.now }
    ensures { IfOk result (λ boxed. (rest : Terms)
        → term_before term.now rest ≡ rate_before (plain_rate boxed.value) rest) }
{
    let rate = rate_of(alloc, term)?;
    Ok(Box::new(alloc, rate)?)
}

#[cycle(read)]
fn operands_of(alloc: Global, arguments: &[Term]) -> Result<(Box<Rate>, Box<Rate>), AllocError>
    requires { AllFit (place.Rate ∷ place.Rate ∷ []) arguments.now }
    ensures { IfOk result (λ operands. terms_of arguments.now
        ≡ rate_before (plain_rate operands.0.value)
        (rate_before (plain_rate operands.1.value) none)) }
{
    let [left, right] = arguments else {
        unreachable!();
    };
    Ok((boxed_rate(alloc, left)?, boxed_rate(alloc, right)?))
}

#[cycle(read)]
fn operand_of(alloc: Global, arguments: &[Term]) -> Result<Box<Rate>, AllocError>
    requires { AllFit (place.Rate ∷ []) arguments.now }
    ensures { IfOk result (λ operand. terms_of arguments.now
        ≡ rate_before (plain_rate operand.value) none) }
{
    let [operand] = arguments else {
        unreachable!();
    };
    boxed_rate(alloc, operand)
}
