//! The two nodes with a stream of their own below them: `compose(F, G)` has G on the values of F,
//! and `collect(KEY, PRED, RATE, F)` has F, for each key, on the items of this key.
ghost use Rattle.std.specs.Prelude.{◌≡◌, true, IfErr, IfOk, OnOk};
ghost use Rattle.query_syntax.specs.Plain.{plain_predicate, plain_rate};
ghost use Rattle.query_syntax.specs.Predicates as p;
ghost use Rattle.query_syntax.specs.Queries as q;
ghost use Rattle.query_syntax.specs.Rates as r;
ghost use Rattle.query_syntax.specs.declared.key.Key as k;
ghost use Rattle.query_resolver.specs.Nestings.{nesting_of};
ghost use Rattle.query_resolver.specs.Resolutions.{IsComposed, IsMadeOfInner, IsNamedCollection};
ghost use Rattle.query_resolver.specs.Resolutions.{IsRefusedOverInner, columns_of, parts_fit};
ghost use Rattle.query_resolver.specs.Resolved as placed;
ghost use Rattle.query_resolver.specs.Resolved.{may_collect};

use crate::CheckStop;
use crate::columns::have_texts;
use crate::key::named_key;
use crate::nesting::Nesting;
use crate::predicate::named_pred;
use crate::query_types::Typed;
use crate::rate::{all_fit, named_rate};
use crate::shapes::{Items, same_type};
use item_schema::Schema;
use language_base::{Rule, Span};
use predicates::Pred;
use query_model::{KeyColumns, Shape};
use query_syntax::{Key, Predicate};
use rate_expr::Rate;
use std::alloc::{AllocError, Global};
use value_ops::ValueType;

/// `collect(KEY, PRED, RATE, F)` as it is written, without F.
#[derive(Clone, Copy)]
pub struct Collection<'t> {
    pub key: &'t Key,
    pub sync: &'t Predicate,
    pub rate: &'t query_syntax::Rate,
}

/// The same with columns by number in place of their names.
#[derive(Drop)]
pub struct Parts {
    pub key: KeyColumns,
    pub sync: Pred,
    pub rate: Rate,
}

/// The values of `left` are the items of `right`, which was resolved over their one column. The
/// node adds no rule on names, nesting or types.
pub fn compose(alloc: Global, left: Typed, right: Typed, span: Span) -> Result<Typed, AllocError>
    ensures { IfOk result (IsComposed span left right) }
{
    let shape = Shape::Compose(left.query, right.query);
    Typed::new(alloc, shape, span, right.ty)
}

/// The value is a table with the value of `operand` for each key; `operand` was resolved over the
/// same columns, inside of a collection. The rules are checked in the order `name`, `nested`,
/// `type`.
pub fn collect(
    alloc: Global,
    nesting: Nesting,
    items: &Items<'_>,
    written: &Collection<'_>,
    operand: Typed,
    span: Span,
) -> Result<Typed, CheckStop>
    ensures made { IfOk result (IsMadeOfInner (nesting_of nesting) (columns_of items.now)
        (λ f. q.collect written.now.key.now (plain_predicate written.now.sync.now)
        (plain_rate written.now.rate.now) f span) operand) }
    ensures refused { IfErr result (IsRefusedOverInner (nesting_of nesting) (columns_of items.now)
        (λ f. q.collect written.now.key.now (plain_predicate written.now.sync.now)
        (plain_rate written.now.rate.now) f span) operand) }
{
    let parts = fitting_parts(alloc, nesting, items.schema, written, operand.ty, span)?;
    let shape = Shape::Collect(parts.key, parts.sync, parts.rate, operand.query);
    Ok(Typed::new(alloc, shape, span, ValueType::Table)?)
}

// The parts, if the node over an operand of the type keeps all three rules.
fn fitting_parts(
    alloc: Global,
    nesting: Nesting,
    schema: &Schema,
    written: &Collection<'_>,
    ty: ValueType,
    span: Span,
) -> Result<Parts, CheckStop>
    ensures named { IfOk result (IsNamedCollection schema.now.columns written.now.key.now
        (plain_predicate written.now.sync.now) (plain_rate written.now.rate.now)) }
    ensures stands { OnOk result (may_collect (nesting_of nesting) ≡ true) }
    ensures fit { IfOk result (λ parts. parts_fit schema.now.columns ty parts ≡ true) }
    ensures refused { IfErr result (λ stop. (operand : Typed) → operand.ty ≡ ty
        → IsRefusedOverInner (nesting_of nesting) schema.now.columns
        (λ f. q.collect written.now.key.now (plain_predicate written.now.sync.now)
        (plain_rate written.now.rate.now) f span) operand stop) }
{
    let parts = named_parts(alloc, schema, written, span)?;
    match keep_parts(nesting, schema, ty, &parts, span) {
        Ok(()) => Ok(parts),
        Err(stop) => {
            drop(parts);
            Err(stop)
        }
    }
}

// The parts, if all names are known: the key is checked first, then the sync predicate, then the
// rate.
fn named_parts(
    alloc: Global,
    schema: &Schema,
    written: &Collection<'_>,
    span: Span,
) -> Result<Parts, CheckStop>
    ensures made { IfOk result (IsNamedCollection schema.now.columns written.now.key.now
        (plain_predicate written.now.sync.now) (plain_rate written.now.rate.now)) }
    ensures refused { IfErr result (λ stop. (nesting : placed.Nesting) (operand : Typed)
        → IsRefusedOverInner nesting schema.now.columns
        (λ f. q.collect written.now.key.now (plain_predicate written.now.sync.now)
        (plain_rate written.now.rate.now) f span) operand stop) }
{
    let key = named_key(alloc, schema, written.key, span)?;
    let sync = named_pred(alloc, schema, written.sync, span)?;
    let rate = named_rate(alloc, schema, written.rate, span)?;
    Ok(Parts { key, sync, rate })
}

// Asks `nested`, and then `type`.
fn keep_parts(
    nesting: Nesting,
    schema: &Schema,
    ty: ValueType,
    parts: &Parts,
    span: Span,
) -> Result<(), CheckStop>
    ensures stands { OnOk result (may_collect (nesting_of nesting) ≡ true) }
    ensures fit { OnOk result (parts_fit schema.now.columns ty parts.now ≡ true) }
    ensures refused { IfErr result (λ stop. (key : k.Key) (sync : p.Predicate) (rate : r.Rate)
        (operand : Typed) → IsNamedCollection schema.now.columns key sync rate parts.now
        → operand.ty ≡ ty → IsRefusedOverInner (nesting_of nesting) schema.now.columns
        (λ f. q.collect key sync rate f span) operand stop) }
{
    if !nesting.may_collect() {
        return Err(CheckStop::refused(Rule::Nested, span));
    }
    if !parts_fit(schema, ty, parts) {
        return Err(CheckStop::refused(Rule::Mismatch, span));
    }
    Ok(())
}

fn parts_fit(schema: &Schema, ty: ValueType, parts: &Parts) -> bool
    ensures { result ≡ parts_fit schema.now.columns ty parts.now }
{
    same_type(ty, ValueType::Number)
        && have_texts(schema, parts.key.as_slice())
        && parts.sync.fits(schema)
        && all_fit(schema, &parts.rate)
}
