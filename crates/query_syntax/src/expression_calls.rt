//! The expressions that calls write, from their arguments.
ghost use Rattle.std.specs.Prelude.{◌≡◌, [], ◌∷◌, All, IfOk, codes, length};
ghost use Rattle.few_parts.specs.Sizes.{IsRecordSize};
ghost use Rattle.query_forms.specs.declared.term_place.TermPlace.TheVariants as place;
ghost use Rattle.query_forms.specs.Terms.{Terms, call, none};
ghost use Rattle.query_parser.specs.Plain.{term_before, terms_of};
ghost use Rattle.query_syntax.specs.Calls.{IsCall};
ghost use Rattle.query_syntax.specs.Fits.{AllFit, Fits};
ghost use Rattle.query_syntax.specs.Plain.{plain_expression};
ghost use Rattle.query_syntax.specs.Words.{binary_word, compare_word, extremum_word, summary_word};
ghost use Rattle.query_syntax.specs.Words.{unary_word};
ghost use Rattle.query_syntax.specs.Written.{expression_before};

use crate::expression_head::comparison_head;
use crate::expression_reading::{boxed_expression, expression_of};
use crate::leaf_reading::{index_of, name_of, text_of};
use crate::{BinaryOp, Comparison, Expression, Extremum, Summary, UnaryOp};
use few_parts::Few;
use language_base::Span;
use query_parser::Term;
use std::alloc::{AllocError, Global};

#[cycle(read_expression)]
pub(crate) fn unary_of(
    alloc: Global,
    operator: UnaryOp,
    arguments: &[Term],
    span: Span,
) -> Result<Expression, AllocError>
    requires { AllFit (place.Expr ∷ []) arguments.now }
    ensures { IfOk result (λ expression.
        IsCall (unary_word operator) arguments.now span
        (expression_before (plain_expression expression))) }
{
    let [operand] = arguments else {
        unreachable!();
    };
    Ok(Expression::Unary {
        operator,
        operand: boxed_expression(alloc, operand)?,
        span,
    })
}

#[cycle(read_expression)]
pub(crate) fn binary_of(
    alloc: Global,
    operator: BinaryOp,
    arguments: &[Term],
    span: Span,
) -> Result<Expression, AllocError>
    requires { AllFit (place.Expr ∷ place.Expr ∷ []) arguments.now }
    ensures { IfOk result (λ expression.
        IsCall (binary_word operator) arguments.now span
        (expression_before (plain_expression expression))) }
{
    let (left, right) = operands_of(alloc, arguments)?;
    Ok(Expression::Binary {
        operator,
        left,
        right,
        span,
    })
}

#[cycle(read_expression)]
pub(crate) fn if_of(alloc: Global, arguments: &[Term], span: Span) -> Result<Expression, AllocError>
    requires { AllFit (place.Compare ∷ place.Expr ∷ place.Expr ∷ []) arguments.now }
    ensures { IfOk result (λ expression.
        IsCall (codes "if") arguments.now span (expression_before (plain_expression expression))) }
{
    let [test, holds, fails] = arguments else {
        unreachable!();
    };
    let test = comparison_of(alloc, test)?;
    let holds = boxed_expression(alloc, holds)?;
    Ok(Expression::If {
        test,
        holds,
        fails: boxed_expression(alloc, fails)?,
        span,
    })
}

pub(crate) fn summary_of(
    alloc: Global,
    summary: Summary,
    arguments: &[Term],
    span: Span,
) -> Result<Expression, AllocError>
    requires { AllFit (place.Name ∷ []) arguments.now }
    ensures { IfOk result (λ expression.
        IsCall (summary_word summary) arguments.now span
        (expression_before (plain_expression expression))) }
{
    let [table] = arguments else {
        unreachable!();
    };
    Ok(Expression::Summary {
        summary,
        table: name_of(alloc, table)?,
        span,
    })
}

#[cycle(read_expression)]
pub(crate) fn extremum_of(
    alloc: Global,
    extremum: Extremum,
    arguments: &[Term],
    span: Span,
) -> Result<Expression, AllocError>
    requires { AllFit (place.Name ∷ place.Expr ∷ []) arguments.now }
    ensures { IfOk result (λ expression.
        IsCall (extremum_word extremum) arguments.now span
        (expression_before (plain_expression expression))) }
{
    let [table, first] = arguments else {
        unreachable!();
    };
    let first = boxed_expression(alloc, first)?;
    Ok(Expression::Extremum {
        extremum,
        table: name_of(alloc, table)?,
        first,
        span,
    })
}

#[cycle(read_expression)]
pub(crate) fn get_of(
    alloc: Global,
    arguments: &[Term],
    span: Span,
) -> Result<Expression, AllocError>
    requires { AllFit (place.Name ∷ place.Text ∷ place.Expr ∷ []) arguments.now }
    ensures { IfOk result (λ expression.
        IsCall (codes "tget") arguments.now span
        (expression_before (plain_expression expression))) }
{
    let [table, key, absent] = arguments else {
        unreachable!();
    };
    let absent = boxed_expression(alloc, absent)?;
    let table = name_of(alloc, table)?;
    Ok(Expression::Get {
        table,
        key: text_of(alloc, key)?,
        absent,
        span,
    })
}

pub(crate) fn part_of(
    alloc: Global,
    arguments: &[Term],
    span: Span,
) -> Result<Expression, AllocError>
    requires { AllFit (place.Name ∷ place.Index ∷ []) arguments.now }
    ensures { IfOk result (λ expression.
        IsCall (codes "part") arguments.now span
        (expression_before (plain_expression expression))) }
{
    let [whole, index] = arguments else {
        unreachable!();
    };
    let index = index_of(index);
    Ok(Expression::Part {
        whole: name_of(alloc, whole)?,
        index,
        span,
    })
}

#[cycle(read_expression)]
pub(crate) fn record_of(
    alloc: Global,
    arguments: &[Term],
    span: Span,
) -> Result<Expression, AllocError>
    requires fit { All (Fits place.Expr) arguments.now }
    requires size { IsRecordSize (length arguments.now) }
    ensures { IfOk result (λ expression.
        IsCall (codes "rec") arguments.now span
        (expression_before (plain_expression expression))) }
{
    let mut parts = Vec::new(alloc);
    'arguments: for argument in arguments {
        parts.push(expression_of(alloc, argument)?)?;
    }
    Ok(Expression::Record {
        parts: Few::of(parts),
        span,
    })
}

#[cycle(read_expression)]
fn comparison_of(alloc: Global, term: &Term) -> Result<Comparison, AllocError>
    requires { Fits place.Compare term.now }
    ensures { IfOk result (λ test. (rest : Terms) → term_before term.now rest
        ≡ call (compare_word test.compare) (expression_before (plain_expression test.left.value)
        (expression_before (plain_expression test.right.value) none)) test.span rest) }
{
    match term {
        Term::Call(word, arguments, span) => {
            let arguments = arguments.as_slice();
            let compare = comparison_head(word.as_slice(), arguments);
            let (left, right) = operands_of(alloc, arguments)?;
            Ok(Comparison {
                compare,
                left,
                right,
                span: *span,
            })
        }
        Term::Word(_, _) | Term::Number(_, _) | Term::Text(_, _) => unreachable!(),
    }
}

#[cycle(read_expression)]
fn operands_of(
    alloc: Global,
    arguments: &[Term],
) -> Result<(Box<Expression>, Box<Expression>), AllocError>
    requires { AllFit (place.Expr ∷ place.Expr ∷ []) arguments.now }
    ensures { IfOk result (λ operands. terms_of arguments.now
        ≡ expression_before (plain_expression operands.0.value)
        (expression_before (plain_expression operands.1.value) none)) }
{
    let [left, right] = arguments else {
        unreachable!();
    };
    Ok((
        boxed_expression(alloc, left)?,
        boxed_expression(alloc, right)?,
    ))
}
