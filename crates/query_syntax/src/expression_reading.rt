//! Expressions from the terms that write them.
ghost use Rattle.std.specs.Prelude.{◌≡◌, IfOk};
ghost use Rattle.query_forms.specs.declared.term_place.TermPlace.TheVariants as place;
ghost use Rattle.query_forms.specs.Terms.{Terms};
ghost use Rattle.query_parser.specs.Plain.{term_before};
ghost use Rattle.query_syntax.specs.Calls.{IsCall};
ghost use Rattle.query_syntax.specs.Fits.{Fits, HasForm};
ghost use Rattle.query_syntax.specs.Plain.{plain_expression};
ghost use Rattle.query_syntax.specs.Written.{expression_before};

use crate::expression_calls::{
    binary_of, extremum_of, get_of, if_of, part_of, record_of, summary_of, unary_of,
};
use crate::expression_head::{ExpressionHead, expression_head};
use crate::{Expression, Name, Number};
use language_base::Span;
use query_parser::Term;
use std::alloc::{AllocError, Global};

#[cycle(read_expression)]
pub(crate) fn expression_of(alloc: Global, term: &Term) -> Result<Expression, AllocError>
    requires { Fits place.Expr term.now }
    ensures { IfOk result (λ expression. (rest : Terms)
        → term_before term.now rest ≡ expression_before (plain_expression expression) rest) }
{
    match term {
        Term::Word(bytes, span) => Ok(Expression::Name(Name {
            bytes: bytes.try_copy(alloc)?,
            span: *span,
        })),
        Term::Number(value, span) => Ok(Expression::Number(Number {
            value: *value,
            span: *span,
        })),
        Term::Text(_, _) => unreachable!(),
        Term::Call(word, arguments, span) => {
            expression_call(alloc, word.as_slice(), arguments.as_slice(), *span)
        }
    }
}

#[cycle(read_expression)]
fn expression_call(
    alloc: Global,
    word: &[u8],
    arguments: &[Term],
    span: Span,
) -> Result<Expression, AllocError>
    requires { HasForm place.Expr word.now arguments.now }
    ensures { IfOk result (λ expression.
        IsCall word.now arguments.now span (expression_before (plain_expression expression))) }
{
    match expression_head(word, arguments) {
        ExpressionHead::Unary(operator) => unary_of(alloc, operator, arguments, span),
        ExpressionHead::Binary(operator) => binary_of(alloc, operator, arguments, span),
        ExpressionHead::If => if_of(alloc, arguments, span),
        ExpressionHead::Summary(summary) => summary_of(alloc, summary, arguments, span),
        ExpressionHead::Extremum(extremum) => extremum_of(alloc, extremum, arguments, span),
        ExpressionHead::Get => get_of(alloc, arguments, span),
        ExpressionHead::Part => part_of(alloc, arguments, span),
        ExpressionHead::Record(_) => record_of(alloc, arguments, span),
    }
}

#[cycle(read_expression)]
pub(crate) fn boxed_expression(alloc: Global, term: &Term) -> Result<Box<Expression>, AllocError>
    requires { Fits place.Expr term.now }
    ensures { IfOk result (λ boxed. (rest : Terms)
        → term_before term.now rest ≡ expression_before (plain_expression boxed.value) rest) }
{
    let expression = expression_of(alloc, term)?;
    Ok(Box::new(alloc, expression)?)
}
