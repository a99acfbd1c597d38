//! The rules that are checked before the rules of words: names, nodes, types, positions, slots,
//! cells.
ghost use Rattle.std.specs.Prelude.{◌≡◌, IfErr, IfOk, None, Ok, OnOk};
ghost use Rattle.std.specs.List.{Contains};
ghost use Rattle.item_schema.specs.Layout.{Layout};
ghost use Rattle.predicates.specs.Predicates.{Predicate};
ghost use Rattle.query_lets.specs.Unfolded.{unfolded};
ghost use Rattle.query_lets.specs.Words.{wrong_name};
ghost use Rattle.query_model.specs.Queries.{plain_of};
ghost use Rattle.query_model.specs.Sizes.{predicates_of};
ghost use Rattle.query_syntax.specs.Limits.{IsWithin};
ghost use Rattle.query_syntax.specs.Plain.{plain_program, plain_stream};
ghost use Rattle.query_syntax.specs.Queries as syntax;
ghost use Rattle.query_resolver.specs.Findings.{IsUnresolved, KeepsTypes, places_in};
ghost use Rattle.query_resolver.specs.Measures.{limited, measured};
ghost use Rattle.query_resolver.specs.Nodes.{places_of};
ghost use Rattle.query_resolver.specs.Passes.{IsBeyond, IsLimited, IsMeasured, IsNamed};
ghost use Rattle.query_resolver.specs.Passes.{distinguished, values_apart};
ghost use Rattle.query_resolver.specs.Resolved.{outside, resolved};

use crate::CheckStop;
use crate::after_lets::keep_nodes;
use crate::composed_cells::first_apart;
use crate::nesting::Nesting;
use crate::resolution::resolve;
use crate::sizes::positions_of;
use crate::stream_schema::schema_of;
use item_schema::Schema;
use language_base::{Rule, Span};
use memory_bound::slots;
use predicate_cells::{CellStop, Cells};
use query_lets::{Scope, places_of};
use query_model::{Query, cells_of};
use query_syntax::Program;
use std::alloc::Global;

// The most slots that an engine may keep for a query.
const MAX_SLOTS: u32 = 1_048_576;

/// A query that keeps all rules but those of words, its stream, and the cells of its items.
#[derive(Drop)]
pub struct Measured {
    pub schema: Schema,
    pub query: Box<Query>,
    pub cells: Cells,
}

/// The query of a program, or the first rule before those of words that the program breaks.
pub fn measure(alloc: Global, program: &Program) -> Result<Measured, CheckStop>
    requires { IsWithin (plain_stream program.now.stream) }
    ensures measured { IfOk result (IsMeasured (plain_program program.now)) }
    ensures refused { IfErr result (IsUnresolved (measured (plain_program program.now))) }
{
    keep_nodes(alloc, program)?;
    let schema = schema_of(alloc, &program.stream)?;
    let query = query_in(alloc, &schema, program)?;
    let cells = cells_within(alloc, &schema, &query, program.stream.span)?;
    Ok(Measured {
        schema,
        query,
        cells,
    })
}

// The main query after lets, with names resolved and types that fit.
fn query_in(alloc: Global, schema: &Schema, program: &Program) -> Result<Box<Query>, CheckStop>
    requires { wrong_name (plain_program program.now) ≡ None }
    ensures named { IfOk result (λ query.
        IsNamed schema.now.columns (unfolded (plain_program program.now)) query.value) }
    ensures refused { IfErr result (IsUnresolved
        (resolved outside schema.now.columns (unfolded (plain_program program.now)))) }
{
    let places = places_of(alloc, program)?;
    let main = Scope::main(program, &places);
    let typed = resolve(alloc, Nesting::Outside, schema, main)?;
    Ok(typed.query)
}

// The cells of the stream's items, if the query keeps the limits on positions, slots and cells.
fn cells_within(
    alloc: Global,
    schema: &Schema,
    query: &Query,
    stream: Span,
) -> Result<Cells, CheckStop>
    requires { KeepsTypes schema.now.columns (plain_of query.now.shape) }
    ensures limited { OnOk result (IsLimited query.now) }
    ensures layout { IfOk result (λ cells. cells.layout ≡ schema.now) }
    ensures members { IfOk result (λ cells. (pred : Predicate)
        → Contains (predicates_of (plain_of query.now.shape)) pred → Contains cells.preds pred) }
    ensures few { OnOk result
        (distinguished schema.now.columns stream (plain_of query.now.shape) ≡ Ok tt) }
    ensures values { OnOk result (values_apart schema.now.columns query.now ≡ Ok tt) }
    ensures refused { IfErr result (IsBeyond schema.now.columns stream query.now) }
{
    keep_limits(query)?;
    let cells = cells_in(alloc, schema, query, stream)?;
    keep_values(alloc, schema, query)?;
    Ok(cells)
}

// Whether no node has too many positions, nor the query too many slots.
fn keep_limits(query: &Query) -> Result<(), CheckStop>
    ensures limited { OnOk result (IsLimited query.now) }
    ensures refused { IfErr result (λ stop. (layout : Layout) (tree : syntax.Query)
        → places_of tree ≡ places_in query.now
        → IsUnresolved (limited layout tree (plain_of query.now.shape)) stop) }
{
    match positions_of(query) {
        Ok(_) => {
            if slots(query) > MAX_SLOTS {
                return Err(CheckStop::refused(Rule::Size, query.span));
            }
            Ok(())
        }
        Err(span) => Err(CheckStop::refused(Rule::Size, span)),
    }
}

// The cells of a stream's items under the predicates of a query.
fn cells_in(alloc: Global, schema: &Schema, query: &Query, stream: Span) -> Result<Cells, CheckStop>
    requires { KeepsTypes schema.now.columns (plain_of query.now.shape) }
    ensures layout { IfOk result (λ cells. cells.layout ≡ schema.now) }
    ensures members { IfOk result (λ cells. (pred : Predicate)
        → Contains (predicates_of (plain_of query.now.shape)) pred → Contains cells.preds pred) }
    ensures few { OnOk result
        (distinguished schema.now.columns stream (plain_of query.now.shape) ≡ Ok tt) }
    ensures refused { IfErr result (IsUnresolved
        (distinguished schema.now.columns stream (plain_of query.now.shape))) }
{
    match cells_of(alloc, schema, query) {
        Ok(cells) => Ok(cells),
        Err(CellStop::TooMany) => Err(CheckStop::refused(Rule::Cells, stream)),
        Err(CellStop::Memory) => Err(CheckStop::Memory),
    }
}

// Whether no right operand of a composition distinguishes too many values of the left one.
fn keep_values(alloc: Global, schema: &Schema, query: &Query) -> Result<(), CheckStop>
    requires { KeepsTypes schema.now.columns (plain_of query.now.shape) }
    ensures few { OnOk result (values_apart schema.now.columns query.now ≡ Ok tt) }
    ensures refused { IfErr result (IsUnresolved (values_apart schema.now.columns query.now)) }
{
    match first_apart(alloc, schema, query)? {
        Some(span) => Err(CheckStop::refused(Rule::Cells, span)),
        None => Ok(()),
    }
}
