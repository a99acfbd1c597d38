//! The cells of the values that a composition passes from its left operand to its right one, whose
//! predicates must not distinguish too many of them.
ghost use Rattle.std.specs.Prelude.{◌≡◌, Some, None, not, if◌then◌else◌, IfOk};
ghost use Rattle.std.specs.Option.{option_or};
ghost use Rattle.predicate_cells.specs.Cells.{AllFit};
ghost use Rattle.query_model.specs.Queries.{plain_of};
ghost use Rattle.query_model.specs.QueryTypes.{derived_columns, type_of};
ghost use Rattle.query_model.specs.Rules.{Standing};
ghost use Rattle.query_model.specs.Sizes.{predicates_of};
ghost use Rattle.query_resolver.specs.Findings.{KeepsTypes, derives_many, first_after};
ghost use Rattle.query_resolver.specs.Findings.{first_in};
ghost use Rattle.query_model.specs.Few.{has_few_cells};

use crate::values::values_of;
use item_schema::Schema;
use language_base::Span;
use predicate_cells::CellStop;
use query_model::{Query, Shape, cells_of};
use std::alloc::{AllocError, Global};

/// The place of the first composition whose right operand distinguishes too many values of the left
/// one.
#[cycle(apart)]
pub fn first_apart(
    alloc: Global,
    schema: &Schema,
    query: &Query,
) -> Result<Option<Span>, AllocError>
    requires { KeepsTypes schema.now.columns (plain_of query.now.shape) }
    ensures { IfOk result (λ found. (standing : Standing)
        → first_in derives_many schema.now.columns standing query.now ≡ found) }
{
    match &query.shape {
        Shape::Atom(..) | Shape::Eps(_) => Ok(None),
        Shape::Or(first, second)
        | Shape::Split(first, second, _)
        | Shape::Combine(first, second, _) => first_of_two(alloc, schema, first, second),
        Shape::Iter(inner, ..) | Shape::Apply(inner, _) | Shape::Collect(_, _, _, inner) => {
            first_apart(alloc, schema, inner)
        }
        Shape::Compose(first, second) => {
            first_composed(alloc, schema, first, second, query.span)
        }
    }
}

// The same of two operands on one stream.
#[cycle(apart)]
fn first_of_two(
    alloc: Global,
    schema: &Schema,
    first: &Query,
    second: &Query,
) -> Result<Option<Span>, AllocError>
    requires first { KeepsTypes schema.now.columns (plain_of first.now.shape) }
    requires second { KeepsTypes schema.now.columns (plain_of second.now.shape) }
    ensures { IfOk result (λ found. (standing : Standing)
        → option_or (first_in derives_many schema.now.columns standing first.now)
        (first_in derives_many schema.now.columns standing second.now) ≡ found) }
{
    let left = first_apart(alloc, schema, first)?;
    let right = first_apart(alloc, schema, second)?;
    Ok(left.or(right))
}

// The same of a composition with these operands, which stands at the place.
#[cycle(apart)]
fn first_composed(
    alloc: Global,
    schema: &Schema,
    first: &Query,
    second: &Query,
    span: Span,
) -> Result<Option<Span>, AllocError>
    requires first { KeepsTypes schema.now.columns (plain_of first.now.shape) }
    requires second { KeepsTypes
        (derived_columns (type_of schema.now.columns (plain_of first.now.shape)))
        (plain_of second.now.shape) }
    ensures { IfOk result (λ found. (standing : Standing)
        → option_or (first_in derives_many schema.now.columns standing first.now) (first_after
        (derived_columns (type_of schema.now.columns (plain_of first.now.shape))) standing
        second.now span) ≡ found) }
{
    let left = first_apart(alloc, schema, first)?;
    let after = first_after(alloc, schema, first, second, span)?;
    Ok(left.or(after))
}

// The same of the right operand of a composition and, if nothing is found there, of the composition
// itself.
#[cycle(apart)]
fn first_after(
    alloc: Global,
    schema: &Schema,
    first: &Query,
    second: &Query,
    span: Span,
) -> Result<Option<Span>, AllocError>
    requires first { KeepsTypes schema.now.columns (plain_of first.now.shape) }
    requires second { KeepsTypes
        (derived_columns (type_of schema.now.columns (plain_of first.now.shape)))
        (plain_of second.now.shape) }
    ensures { IfOk result (λ found. (standing : Standing) → found ≡ first_after
        (derived_columns (type_of schema.now.columns (plain_of first.now.shape))) standing
        second.now span) }
{
    let values = values_of(alloc, schema, first)?;
    let right = first_apart(alloc, &values, second)?;
    let here = place_of_many(alloc, &values, second, span)?;
    Ok(right.or(here))
}

// The place, if the predicates of the query make too many cells of the stream.
fn place_of_many(
    alloc: Global,
    schema: &Schema,
    query: &Query,
    span: Span,
) -> Result<Option<Span>, AllocError>
    requires { AllFit schema.now.columns (predicates_of (plain_of query.now.shape)) }
    ensures { IfOk result (λ place. place
        ≡ (if not (has_few_cells schema.now.columns (plain_of query.now.shape)) then Some span
        else None)) }
{
    match cells_of(alloc, schema, query) {
        Ok(_) => Ok(None),
        Err(CellStop::TooMany) => Ok(Some(span)),
        Err(CellStop::Memory) => Err(AllocError),
    }
}
