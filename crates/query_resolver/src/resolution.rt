//! Queries whose names are resolved and whose types fit.
ghost use Rattle.std.specs.Prelude.{IfErr, IfOk};
ghost use Rattle.query_lets.specs.Places.{IsPlaced, IsRoot, query_of, unfolded_of};
ghost use Rattle.query_model.specs.QueryTypes.{derived_columns};
ghost use Rattle.query_resolver.specs.Forms.{IsApply, IsCollect, IsCompose, IsIter, IsPair};
ghost use Rattle.query_resolver.specs.Nestings.{nesting_of};
ghost use Rattle.query_resolver.specs.Resolutions.{HasTypes, IsMade, IsRefused, columns_of};
ghost use Rattle.query_resolver.specs.Resolved.{inside};
ghost use Rattle.value_ops.specs.Types.{IsType};

use crate::CheckStop;
use crate::atom::atom;
use crate::nesting::Nesting;
use crate::query_types::{Typed, types_of};
use crate::shapes::{Items, apply, eps, iter, joined, pair_of};
use crate::streams::{Collection, collect, compose};
use item_schema::Schema;
use language_base::Rule;
use query_lets::Scope;
use query_syntax::Query;
use std::alloc::Global;
use value_ops::ValueType;

/// The query on items of the schema, or the first rule of names, nesting or types that it breaks.
#[cycle(resolve)]
pub fn resolve(
    alloc: Global,
    nesting: Nesting,
    schema: &Schema,
    scope: Scope<'_, '_>,
) -> Result<Typed, CheckStop>
    requires { IsPlaced scope }
    ensures made { IfOk result
        (IsMade (nesting_of nesting) schema.now.columns (unfolded_of scope.entry)) }
    ensures refused { IfErr result
        (IsRefused (nesting_of nesting) schema.now.columns (unfolded_of scope.entry)) }
{
    let types = types_of(alloc, schema.columns())?;
    let items = Items {
        schema,
        types: &types,
    };
    resolve_over(alloc, nesting, &items, scope)
}

#[cycle(resolve)]
fn resolve_over(
    alloc: Global,
    nesting: Nesting,
    items: &Items<'_>,
    scope: Scope<'_, '_>,
) -> Result<Typed, CheckStop>
    requires types { HasTypes items.now }
    requires placed { IsPlaced scope }
    ensures made { IfOk result
        (IsMade (nesting_of nesting) (columns_of items.now) (unfolded_of scope.entry)) }
    ensures refused { IfErr result
        (IsRefused (nesting_of nesting) (columns_of items.now) (unfolded_of scope.entry)) }
{
    resolve_root(alloc, nesting, items, scope.root())
}

// The same of a query that is not the name of a let.
#[cycle(resolve)]
fn resolve_root(
    alloc: Global,
    nesting: Nesting,
    items: &Items<'_>,
    scope: Scope<'_, '_>,
) -> Result<Typed, CheckStop>
    requires types { HasTypes items.now }
    requires placed { IsPlaced scope }
    requires root { IsRoot scope }
    ensures made { IfOk result
        (IsMade (nesting_of nesting) (columns_of items.now) (unfolded_of scope.entry)) }
    ensures refused { IfErr result
        (IsRefused (nesting_of nesting) (columns_of items.now) (unfolded_of scope.entry)) }
{
    match scope.query {
        Query::Name(name) => Err(CheckStop::refused(Rule::Name, name.span)),
        Query::Atom {
            predicate,
            value,
            span,
        } => atom(alloc, items, predicate, value, *span),
        Query::Eps { value, span } => eps(alloc, value, *span),
        Query::Or { .. } | Query::Split { .. } | Query::Combine { .. } => {
            resolve_pair(alloc, nesting, items, scope)
        }
        Query::Iter { .. } => resolve_iter(alloc, nesting, items, scope),
        Query::Apply { .. } => resolve_apply(alloc, nesting, items, scope),
        Query::Compose { .. } => resolve_fed(alloc, nesting, items, scope),
        Query::Collect { .. } => resolve_collection(alloc, nesting, items, scope),
    }
}

// The node of two operands on one stream.
#[cycle(resolve)]
fn resolve_pair(
    alloc: Global,
    nesting: Nesting,
    items: &Items<'_>,
    scope: Scope<'_, '_>,
) -> Result<Typed, CheckStop>
    requires types { HasTypes items.now }
    requires placed { IsPlaced scope }
    requires form { IsPair (query_of scope) }
    ensures made { IfOk result
        (IsMade (nesting_of nesting) (columns_of items.now) (unfolded_of scope.entry)) }
    ensures refused { IfErr result
        (IsRefused (nesting_of nesting) (columns_of items.now) (unfolded_of scope.entry)) }
{
    let pair = pair_of(scope.query);
    let one = Scope {
        query: pair.left,
        ..scope
    };
    let other = Scope {
        query: pair.right,
        ..scope
    };
    let first = resolve_over(alloc, nesting, items, one)?;
    let second = resolve_over(alloc, nesting, items, other)?;
    joined(alloc, pair.joint, first, second, pair.span)
}

#[cycle(resolve)]
fn resolve_iter(
    alloc: Global,
    nesting: Nesting,
    items: &Items<'_>,
    scope: Scope<'_, '_>,
) -> Result<Typed, CheckStop>
    requires types { HasTypes items.now }
    requires placed { IsPlaced scope }
    requires form { IsIter (query_of scope) }
    ensures made { IfOk result
        (IsMade (nesting_of nesting) (columns_of items.now) (unfolded_of scope.entry)) }
    ensures refused { IfErr result
        (IsRefused (nesting_of nesting) (columns_of items.now) (unfolded_of scope.entry)) }
{
    let Query::Iter {
        operand,
        first,
        step,
        span,
    } = scope.query
    else {
        unreachable!()
    };
    let inside = Scope {
        query: operand,
        ..scope
    };
    let inner = resolve_over(alloc, nesting, items, inside)?;
    iter(alloc, inner, first, step, *span)
}

#[cycle(resolve)]
fn resolve_apply(
    alloc: Global,
    nesting: Nesting,
    items: &Items<'_>,
    scope: Scope<'_, '_>,
) -> Result<Typed, CheckStop>
    requires types { HasTypes items.now }
    requires placed { IsPlaced scope }
    requires form { IsApply (query_of scope) }
    ensures made { IfOk result
        (IsMade (nesting_of nesting) (columns_of items.now) (unfolded_of scope.entry)) }
    ensures refused { IfErr result
        (IsRefused (nesting_of nesting) (columns_of items.now) (unfolded_of scope.entry)) }
{
    let Query::Apply {
        operand,
        value,
        span,
    } = scope.query
    else {
        unreachable!()
    };
    let inside = Scope {
        query: operand,
        ..scope
    };
    let inner = resolve_over(alloc, nesting, items, inside)?;
    apply(alloc, inner, value, *span)
}

#[cycle(resolve)]
fn resolve_collection(
    alloc: Global,
    nesting: Nesting,
    items: &Items<'_>,
    scope: Scope<'_, '_>,
) -> Result<Typed, CheckStop>
    requires types { HasTypes items.now }
    requires placed { IsPlaced scope }
    requires form { IsCollect (query_of scope) }
    ensures made { IfOk result
        (IsMade (nesting_of nesting) (columns_of items.now) (unfolded_of scope.entry)) }
    ensures refused { IfErr result
        (IsRefused (nesting_of nesting) (columns_of items.now) (unfolded_of scope.entry)) }
{
    let Query::Collect {
        key,
        sync,
        rate,
        body,
        span,
    } = scope.query
    else {
        unreachable!()
    };
    let inside = Scope {
        query: body,
        ..scope
    };
    let inner = resolve_over(alloc, Nesting::Inside, items, inside)?;
    let written = Collection { key, sync, rate };
    collect(alloc, nesting, items, &written, inner, *span)
}

// The right operand of a composition, on the stream of the values of the left one.
#[cycle(resolve)]
fn resolve_fed(
    alloc: Global,
    nesting: Nesting,
    items: &Items<'_>,
    scope: Scope<'_, '_>,
) -> Result<Typed, CheckStop>
    requires types { HasTypes items.now }
    requires placed { IsPlaced scope }
    requires form { IsCompose (query_of scope) }
    ensures made { IfOk result
        (IsMade (nesting_of nesting) (columns_of items.now) (unfolded_of scope.entry)) }
    ensures refused { IfErr result
        (IsRefused (nesting_of nesting) (columns_of items.now) (unfolded_of scope.entry)) }
{
    let Query::Compose { left, right, span } = scope.query else {
        unreachable!()
    };
    let one = Scope {
        query: left,
        ..scope
    };
    let other = Scope {
        query: right,
        ..scope
    };
    let first = resolve_over(alloc, nesting, items, one)?;
    let second = resolve_on_values(alloc, first.ty, other)?;
    Ok(compose(alloc, first, second, *span)?)
}

// The query on the stream of values of a type.
#[cycle(resolve)]
fn resolve_on_values(alloc: Global, ty: ValueType, scope: Scope<'_, '_>) -> Result<Typed, CheckStop>
    requires value { IsType ty }
    requires placed { IsPlaced scope }
    ensures made { IfOk result
        (IsMade inside (derived_columns ty) (unfolded_of scope.entry)) }
    ensures refused { IfErr result
        (IsRefused inside (derived_columns ty) (unfolded_of scope.entry)) }
{
    let values = Schema::derived(alloc, ty)?;
    resolve(alloc, Nesting::Inside, &values, scope)
}
