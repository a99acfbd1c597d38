//! The answers of the queries whose words have one item or none.
ghost use Rattle.std.specs.Prelude.{IfOk};
ghost use Rattle.expressions.specs.Expressions as values;
ghost use Rattle.predicates.specs.Plain as predicates;
ghost use Rattle.query_model.specs.Queries.{atom, eps};
ghost use Rattle.slow_eval.specs.Answers.{AreAnswers, CanBeRead};

use crate::places::no_answers;
use expressions::Expr;
use item_schema::Item;
use predicates::{Pred, holds};
use std::alloc::{AllocError, Global};
use value_ops::{Scalar, Value};

/// An atom can have a value only on the front of one item.
pub(crate) fn atom_answers(
    alloc: Global,
    pred: &Pred,
    expression: &Expr,
    word: &[Item],
) -> Result<Vec<Option<Value>>, AllocError>
    requires { let query = atom (predicates.plain_of pred.now) (values.plain_of expression.now) in
        CanBeRead query word.now }
    ensures { let query = atom (predicates.plain_of pred.now) (values.plain_of expression.now) in
        IfOk result (λ answers. AreAnswers query word.now answers.items) }
{
    let mut answers = no_answers(alloc, word.len())?;
    if let Some(item) = word.first() {
        if holds(pred, item) {
            answers[1] = Some(expression.eval(alloc, item.fields(), None, None)?);
        }
    }
    Ok(answers)
}

/// An eps has its number on the empty front only.
pub(crate) fn eps_answers(
    alloc: Global,
    number: i64,
    word: &[Item],
) -> Result<Vec<Option<Value>>, AllocError>
    ensures { IfOk result (λ answers. AreAnswers (eps number) word.now answers.items) }
{
    let mut answers = no_answers(alloc, word.len())?;
    answers[0] = Some(Value::Scalar(Scalar::Number(number)));
    Ok(answers)
}
