//! Left values of a split: they wait for right values, and are joined with them.
ghost use Rattle.std.specs.Prelude.{◌≡◌, ◌<◌, ◌++◌, ◌∷◌, [], ℕ, Bool, None, Some, length, IfOk};
ghost use Rattle.std.specs.Prelude.{IsOk};
ghost use Rattle.std.specs.Option.{option_copied};
ghost use Rattle.expressions.specs.Expressions.{plain_of};
ghost use Rattle.split_eval.specs.Entries.{entry_at};
ghost use Rattle.step_laws.specs.Lefts.{AreCombined, AreNoTablesOnHits, AreNoTablesWith};
ghost use Rattle.step_laws.specs.Lefts.{AreTypedOnHits, AreTypedWith, IsApplied, IsEnded, IsJoined};
ghost use Rattle.step_laws.specs.Lefts.{IsNoTableOnBoth, IsNoTableOnHit, IsNoTableWith, IsPut};
ghost use Rattle.step_laws.specs.Lefts.{IsTypedOnBoth, IsTypedOnHit, IsTypedWith};

use expressions::Expr;
use split_eval::Pending;
use std::alloc::{AllocError, Global};
use step_laws::Hit;
use value_ops::Value;

/// The left value waits after its piece if this start is live. If the starts are apart
/// (`AreApart`), there is room for it.
pub(crate) fn wait(held: &mut Pending<Value>, live: bool, at: u64, left: Hit)
    requires { entry_at held.old.entries at ≡ None }
    ensures { IsPut live held.old
        (record { inner = at; outer = left.start; value = left.value }) held.new }
{
    if live && held.len() < held.room() as usize {
        let (start, value) = left.into_parts();
        held.put(at, start, value);
    }
}

/// The same where a value may wait there already, which then stays.
pub(crate) fn wait_if_new(held: &mut Pending<Value>, live: bool, at: u64, left: Hit)
    ensures { IsPut live held.old
        (record { inner = at; outer = left.start; value = left.value }) held.new }
{
    if live && held.find(at).is_none() {
        wait(held, live, at, left);
    }
}

/// The hit gets what the expression computes of its value.
pub(crate) fn apply_to(
    alloc: Global,
    expression: &Expr,
    hit: &mut Option<Hit>,
) -> Result<(), AllocError>
    requires { IsTypedOnHit (plain_of expression.now) hit.old }
    ensures applied { IfOk result (λ done. IsApplied (plain_of expression.now) hit.old hit.new) }
    ensures no_memory { IsNoTableOnHit (plain_of expression.now) hit.old → IsOk result }
{
    match hit {
        Some(found) => {
            match expression.eval_scalar(&[], Some(&found.value), None) {
                Some(scalar) => {
                    found.value = Value::Scalar(scalar);
                }
                None => {
                    found.value = expression.eval(alloc, &[], Some(&found.value), None)?;
                }
            }
            Ok(())
        }
        None => Ok(()),
    }
}

/// The hit of a combine, if both operands have one, from the same start. It replaces the hit of the
/// left operand.
#[inline(always)]
pub(crate) fn combine_with(
    alloc: Global,
    expression: &Expr,
    hit: &mut Option<Hit>,
    right: Option<Hit>,
) -> Result<(), AllocError>
    requires { AreTypedOnHits (plain_of expression.now) hit.old right }
    ensures combined { IfOk result (λ done. AreCombined (plain_of expression.now) hit.old right
        hit.new) }
    ensures no_memory { AreNoTablesOnHits (plain_of expression.now) hit.old right → IsOk result }
{
    match hit {
        Some(left) => match right {
            Some(right) => with_right(alloc, expression, left, &right),
            None => {
                *hit = None;
                Ok(())
            }
        },
        None => Ok(()),
    }
}

// The hit of a combine, from those of both operands. It replaces the left one.
#[inline(always)]
fn with_right(
    alloc: Global,
    expression: &Expr,
    hit: &mut Hit,
    right: &Hit,
) -> Result<(), AllocError>
    requires { IsTypedOnBoth (plain_of expression.now) hit.old.value right.now.value }
    ensures combined { IfOk result (λ done. IsJoined (plain_of expression.now) hit.old.start
        hit.old.value (Some right.now) (Some hit.new)) }
    ensures no_memory { IsNoTableOnBoth (plain_of expression.now) hit.old.value right.now.value
        → IsOk result }
{
    match expression.eval_scalar(&[], Some(&hit.value), Some(&right.value)) {
        Some(scalar) => {
            hit.value = Value::Scalar(scalar);
        }
        None => {
            hit.value = expression.eval(alloc, &[], Some(&hit.value), Some(&right.value))?;
        }
    }
    Ok(())
}

/// The hit of a whole whose left value was just found. It replaces the hit of the right operand.
pub(crate) fn join_to(
    alloc: Global,
    expression: &Expr,
    left: &Hit,
    hit: &mut Option<Hit>,
) -> Result<(), AllocError>
    requires { IsTypedWith (plain_of expression.now) left.now.value hit.old }
    ensures joined { IfOk result (λ done. IsJoined (plain_of expression.now) left.now.start
        left.now.value hit.old hit.new) }
    ensures no_memory { IsNoTableWith (plain_of expression.now) left.now.value hit.old
        → IsOk result }
{
    match hit {
        Some(right) => with_left(alloc, expression, left.start, &left.value, right),
        None => Ok(()),
    }
}

/// The hit of a whole whose left value has waited. It replaces the hit of the right operand.
#[inline(always)]
pub(crate) fn end_waiting(
    alloc: Global,
    expression: &Expr,
    held: &Pending<Value>,
    hit: &mut Option<Hit>,
) -> Result<(), AllocError>
    requires { AreTypedWith (plain_of expression.now) held.now.entries hit.old }
    ensures ended { IfOk result (λ done. IsEnded (plain_of expression.now) held.now.entries hit.old
        hit.new) }
    ensures no_memory { AreNoTablesWith (plain_of expression.now) held.now.entries hit.old
        → IsOk result }
{
    match hit {
        Some(right) => match held.find(right.start) {
            Some(entry) => with_left(alloc, expression, entry.outer, &entry.value, right),
            None => {
                *hit = None;
                Ok(())
            }
        },
        None => Ok(()),
    }
}

// The hit of the whole, from that of the right operand and from the start and the value of the left
// one.
#[inline(always)]
fn with_left(
    alloc: Global,
    expression: &Expr,
    start: u64,
    left: &Value,
    hit: &mut Hit,
) -> Result<(), AllocError>
    requires { IsTypedOnBoth (plain_of expression.now) left.now hit.old.value }
    ensures joined { IfOk result (λ done. IsJoined (plain_of expression.now) start left.now
        (Some hit.old) (Some hit.new)) }
    ensures no_memory { IsNoTableOnBoth (plain_of expression.now) left.now hit.old.value
        → IsOk result }
{
    match expression.eval_scalar(&[], Some(left), Some(&hit.value)) {
        Some(scalar) => {
            hit.value = Value::Scalar(scalar);
        }
        None => {
            hit.value = expression.eval(alloc, &[], Some(left), Some(&hit.value))?;
        }
    }
    hit.start = start;
    Ok(())
}
