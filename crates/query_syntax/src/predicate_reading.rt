//! Predicates from the terms that write them.
ghost use Rattle.std.specs.Prelude.{◌≡◌, [], ◌∷◌, IfOk, codes};
ghost use Rattle.query_forms.specs.declared.term_place.TermPlace.TheVariants as place;
ghost use Rattle.query_forms.specs.Terms.{Terms};
ghost use Rattle.query_parser.specs.Plain.{term_before};
ghost use Rattle.query_syntax.specs.Calls.{IsCall};
ghost use Rattle.query_syntax.specs.Fits.{AllFit, Fits, HasForm};
ghost use Rattle.query_syntax.specs.Plain.{plain_predicate};
ghost use Rattle.query_syntax.specs.Words.{connective_word, equality_word, order_word};
ghost use Rattle.query_syntax.specs.Written.{predicate_before};

use crate::leaf_reading::{literal_of, name_of, number_of};
use crate::predicate_head::{PredicateHead, predicate_head};
use crate::{Connective, Equality, Order, Predicate};
use language_base::Span;
use query_parser::Term;
use std::alloc::{AllocError, Global};

#[cycle(read)]
pub(crate) fn predicate_of(alloc: Global, term: &Term) -> Result<Predicate, AllocError>
    requires { Fits place.Pred term.now }
    ensures { IfOk result (λ predicate. (rest : Terms)
        → term_before term.now rest ≡ predicate_before (plain_predicate predicate) rest) }
{
    match term {
        Term::Word(_, span) => Ok(Predicate::Any(*span)),
        Term::Call(word, arguments, span) => {
            predicate_call(alloc, word.as_slice(), arguments.as_slice(), *span)
        }
        Term::Number(_, _) | Term::Text(_, _) => unreachable!(),
    }
}

#[cycle(read)]
fn predicate_call(
    alloc: Global,
    word: &[u8],
    arguments: &[Term],
    span: Span,
) -> Result<Predicate, AllocError>
    requires { HasForm place.Pred word.now arguments.now }
    ensures { IfOk result (λ predicate.
        IsCall word.now arguments.now span (predicate_before (plain_predicate predicate))) }
{
    match predicate_head(word, arguments) {
        PredicateHead::Equality(equality) => equality_of(alloc, equality, arguments, span),
        PredicateHead::Order(order) => order_of(alloc, order, arguments, span),
        PredicateHead::Between => between_of(alloc, arguments, span),
        PredicateHead::IsNum => is_num_of(alloc, arguments, span),
        PredicateHead::Joined(connective) => joined_of(alloc, connective, arguments, span),
        PredicateHead::Not => not_of(alloc, arguments, span),
    }
}

fn equality_of(
    alloc: Global,
    equality: Equality,
    arguments: &[Term],
    span: Span,
) -> Result<Predicate, AllocError>
    requires { AllFit (place.Name ∷ place.Literal ∷ []) arguments.now }
    ensures { IfOk result (λ predicate.
        IsCall (equality_word equality) arguments.now span
        (predicate_before (plain_predicate predicate))) }
{
    let [column, literal] = arguments else {
        unreachable!();
    };
    let column = name_of(alloc, column)?;
    Ok(Predicate::Equality {
        equality,
        column,
        literal: literal_of(alloc, literal)?,
        span,
    })
}

fn order_of(
    alloc: Global,
    order: Order,
    arguments: &[Term],
    span: Span,
) -> Result<Predicate, AllocError>
    requires { AllFit (place.Name ∷ place.Number ∷ []) arguments.now }
    ensures { IfOk result (λ predicate.
        IsCall (order_word order) arguments.now span
        (predicate_before (plain_predicate predicate))) }
{
    let [column, bound] = arguments else {
        unreachable!();
    };
    Ok(Predicate::Order {
        order,
        column: name_of(alloc, column)?,
        bound: number_of(bound),
        span,
    })
}

fn between_of(alloc: Global, arguments: &[Term], span: Span) -> Result<Predicate, AllocError>
    requires { AllFit (place.Name ∷ place.Number ∷ place.Number ∷ []) arguments.now }
    ensures { IfOk result (λ predicate.
        IsCall (codes "between") arguments.now span
        (predicate_before (plain_predicate predicate))) }
{
    let [column, low, high] = arguments else {
        unreachable!();
    };
    Ok(Predicate::Between {
        column: name_of(alloc, column)?,
        low: number_of(low),
        high: number_of(high),
        span,
    })
}

fn is_num_of(alloc: Global, arguments: &[Term], span: Span) -> Result<Predicate, AllocError>
    requires { AllFit (place.Name ∷ []) arguments.now }
    ensures { IfOk result (λ predicate.
        IsCall (codes "isnum") arguments.now span (predicate_before (plain_predicate predicate))) }
{
    let [column] = arguments else {
        unreachable!();
    };
    Ok(Predicate::IsNum {
        column: name_of(alloc, column)?,
        span,
    })
}

#[cycle(read)]
fn joined_of(
    alloc: Global,
    connective: Connective,
    arguments: &[Term],
    span: Span,
) -> Result<Predicate, AllocError>
    requires { AllFit (place.Pred ∷ place.Pred ∷ []) arguments.now }
    ensures { IfOk result (λ predicate.
        IsCall (connective_word connective) arguments.now span
        (predicate_before (plain_predicate predicate))) }
{
    let [left, right] = arguments else {
        unreachable!();
    };
    let left = boxed_predicate(alloc, left)?;
    Ok(Predicate::Joined {
        connective,
        left,
        right: boxed_predicate(alloc, right)?,
        span,
    })
}

#[cycle(read)]
fn not_of(alloc: Global, arguments: &[Term], span: Span) -> Result<Predicate, AllocError>
    requires { AllFit (place.Pred ∷ []) arguments.now }
    ensures { IfOk result (λ predicate.
        IsCall (codes "not") arguments.now span (predicate_before (plain_predicate predicate))) }
{
    let [operand] = arguments else {
        unreachable!();
    };
    Ok(Predicate::Not {
        operand: boxed_predicate(alloc, operand)?,
        span,
    })
}

#[cycle(read)]
pub(crate) fn boxed_predicate(alloc: Global, term: &Term) -> Result<Box<Predicate>, AllocError>
    requires { Fits place.Pred term.now }
    ensures { IfOk result (λ boxed. (rest : Terms)
        → term_before term.now rest ≡ predicate_before (plain_predicate boxed.value) rest) }
{
    let predicate = predicate_of(alloc, term)?;
    Ok(Box::new(alloc, predicate)?)
}
