//! How many positions the rates of a query's nodes have.
ghost use Rattle.std.specs.Prelude.{◌≡◌, ◌-◌, ◌^◌, IfOk, List, map, min};
ghost use Rattle.query_lets.specs.Unfolded.{Binding, bindings_of, replaced, unfolded};
ghost use Rattle.query_syntax.specs.Plain.{plain_let, plain_program, plain_query, plain_rate};
ghost use Rattle.explanation.specs.Counted.{AreCounted};
ghost use Rattle.explanation.specs.Positions.{few, few_positions, in_both, in_left, items_of};

use query_syntax::{Let, Program, Query, Rate};
use std::alloc::{AllocError, Global};
use std::collections::HashMap;

const MAX_POSITIONS: u32 = 128;

/// The positions of the rate of the main query after lets, if no node's rate has too many. The time
/// grows with the terms of the text, not with how often the name of a let is used.
pub(crate) fn few_positions(alloc: Global, program: &Program) -> Result<Option<u32>, AllocError>
    ensures { IfOk result (λ count.
        count ≡ few_positions (unfolded (plain_program program.now))) }
{
    let counted = counted_lets(alloc, &program.lets)?;
    Ok(positions_in(&counted, &program.main.query))
}

// The same for the lets, by their names.
fn counted_lets(alloc: Global, lets: &[Let]) -> Result<HashMap<&[u8], Option<u32>>, AllocError>
    ensures { IfOk result (λ counted.
        AreCounted counted (bindings_of (map plain_let lets.now))) }
{
    let mut counted = HashMap::new(alloc);
    'lets: for one in lets {
        let count = positions_in(&counted, &one.query);
        counted.insert(one.name.bytes.as_slice(), count)?;
    }
    Ok(counted)
}

// The same for a query that uses these lets.
fn positions_in(counted: &HashMap<&[u8], Option<u32>>, query: &Query) -> Option<u32>
    ensures { (bindings : List Binding) → AreCounted counted.now bindings
        → result ≡ few_positions (replaced bindings (plain_query query.now)) }
{
    match query {
        Query::Name(name) => match counted.get(name.bytes.as_slice()) {
            Some(count) => *count,
            None => Some(0),
        },
        Query::Atom { .. } => Some(1),
        Query::Eps { .. } => Some(0),
        Query::Or { left, right, .. } | Query::Split { left, right, .. } => {
            in_both(positions_in(counted, left), positions_in(counted, right))
        }
        Query::Combine { left, right, .. } | Query::Compose { left, right, .. } => {
            in_left(positions_in(counted, left), positions_in(counted, right))
        }
        Query::Iter { operand, .. } | Query::Apply { operand, .. } => {
            positions_in(counted, operand)
        }
        Query::Collect { rate, body, .. } => {
            in_left(few(items_of(rate)), positions_in(counted, body))
        }
    }
}

fn in_both(left: Option<u32>, right: Option<u32>) -> Option<u32>
    ensures { result ≡ in_both left right }
{
    match (left, right) {
        (Some(left), Some(right)) => few(left.saturating_add(right)),
        _ => None,
    }
}

fn in_left(left: Option<u32>, right: Option<u32>) -> Option<u32>
    ensures { result ≡ in_left left right }
{
    match right {
        Some(_) => left,
        None => None,
    }
}

fn few(count: u32) -> Option<u32>
    ensures { result ≡ few count }
{
    if count <= MAX_POSITIONS {
        Some(count)
    } else {
        None
    }
}

// The items of a written rate, or 2^32 - 1 where there are more.
fn items_of(rate: &Rate) -> u32
    ensures { result ≡ min (items_of (plain_rate rate.now)) (2 ^ 32 - 1) }
{
    match rate {
        Rate::Eps(_) => 0,
        Rate::Item { .. } => 1,
        Rate::Joined { left, right, .. } => items_of(left).saturating_add(items_of(right)),
        Rate::Star { operand, .. } => items_of(operand),
    }
}
