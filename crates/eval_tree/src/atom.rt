//! The calls of an atom: it keeps the start at the end of the word.
ghost use Rattle.std.specs.Prelude.{◌≡◌, ℕ, None, Ok, IsOk, IfOk};
ghost use Rattle.predicates.specs.Plain as predicates;
ghost use Rattle.predicates.specs.Predicates.{Predicate};
ghost use Rattle.expressions.specs.Evaluation.{given};
ghost use Rattle.expressions.specs.Expressions as values;
ghost use Rattle.expressions.specs.Typing.{HasType, types_of};
ghost use Rattle.value_ops.specs.declared.value.ValueType.{ValueType};
ghost use Rattle.query_model.specs.Queries.{atom};
ghost use Rattle.eval_nodes.specs.Plain.{holding_of, seen_of};
ghost use Rattle.step_laws.specs.Calls.{HasStarted, HasStepped, found_in};
ghost use Rattle.step_laws.specs.Lefts.{GivesNoTable, IsFound};
ghost use Rattle.step_laws.specs.Steps.{CanStart, CanStep};

use eval_nodes::{Node, State};
use expressions::Expr;
use item_schema::Item;
use predicates::{Pred, holds};
use std::alloc::{AllocError, Global};
use step_laws::Hit;
use value_ops::{Field, Value};

/// An atom has no value on the empty word.
#[tactic(auto, using(step_laws::proofs::Unsound::unlike_atom))]
#[inline(always)]
pub(crate) fn start_atom(node: &mut Node, at: u64)
    requires { (pred : Predicate) × (expression : values.Expression)
        × CanStart seen_of (atom pred expression) (holding_of node.old.state) at }
    ensures { (pred : Predicate) (expression : values.Expression)
        → HasStarted seen_of (atom pred expression) (holding_of node.old.state) at
        (holding_of node.new.state) (Ok None) }
{
    match &mut node.state {
        State::Atom(found) => {
            *found = Some(at);
        }
        _ => unreachable!(),
    }
}

#[tactic(auto, using(step_laws::proofs::Unsound::unlike_atom))]
#[inline(always)]
pub(crate) fn step_atom(
    pred: &Pred,
    expression: &Expr,
    node: &mut Node,
    alloc: Global,
    item: &Item,
    hit: &mut Option<Hit>,
) -> Result<(), AllocError>
    requires none { hit.old ≡ None }
    requires can { (now : ℕ) × CanStep seen_of
        (atom (predicates.plain_of pred.now) (values.plain_of expression.now))
        (holding_of node.old.state) now item.now }
    ensures { (now : ℕ) → HasStepped seen_of
        (atom (predicates.plain_of pred.now) (values.plain_of expression.now))
        (holding_of node.old.state) now item.now (holding_of node.new.state)
        (found_in result hit.new) }
{
    match &mut node.state {
        State::Atom(found) => match found.take() {
            Some(start) if holds(pred, item) => {
                put_value(hit, alloc, expression, item.fields(), start)
            }
            _ => Ok(()),
        },
        _ => unreachable!(),
    }
}

// Sets the hit to what the expression gives on the fields, at the start.
#[inline(always)]
fn put_value(
    hit: &mut Option<Hit>,
    alloc: Global,
    expression: &Expr,
    fields: &[Field],
    start: u64,
) -> Result<(), AllocError>
    requires { (type : ValueType)
        × HasType (types_of (given fields.now None None)) (values.plain_of expression.now) type }
    ensures put { IfOk result (λ done. IsFound (values.plain_of expression.now) start fields.now
        hit.new) }
    ensures no_memory { GivesNoTable (types_of (given fields.now None None))
        (values.plain_of expression.now) → IsOk result }
{
    match expression.eval_scalar(fields, None, None) {
        Some(scalar) => {
            *hit = Some(Hit {
                start,
                value: Value::Scalar(scalar),
            });
        }
        None => {
            let value = expression.eval(alloc, fields, None, None)?;
            *hit = Some(Hit { start, value });
        }
    }
    Ok(())
}
