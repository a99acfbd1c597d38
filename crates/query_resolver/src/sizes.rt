//! How many positions the rates of a query's nodes have.
ghost use Rattle.std.specs.Prelude.{◌≡◌, ◌≤◌, ◌<◌, ◌+◌, List, None, Some, IfErr, IfOk, OnOk};
ghost use Rattle.std.specs.Option.{option_or};
ghost use Rattle.item_schema.specs.declared.column.Column.{Column};
ghost use Rattle.language_base.specs.Limits.{max_positions};
ghost use Rattle.query_model.specs.Queries.{plain_of};
ghost use Rattle.query_model.specs.Rates.{rate_of};
ghost use Rattle.query_model.specs.Rules.{Standing, bound};
ghost use Rattle.query_model.specs.Sizes.{HasFewPositions};
ghost use Rattle.rate_expr.specs.Plain as rates;
ghost use Rattle.rate_expr.specs.Rates.{size_of};
ghost use Rattle.query_resolver.specs.Findings.{first_in, first_over, first_over_two, places_in};
ghost use Rattle.query_resolver.specs.Nodes.{Node, first_where, nodes_in};
ghost use Rattle.query_resolver.specs.Sizes.{has_many_positions};

use language_base::Span;
use query_model::{Query, Shape};
use rate_expr::{MAX_POSITIONS, Rate};

// The positions of the rates of two operands.
#[derive(Drop)]
struct Counts {
    left: u32,
    right: u32,
}

/// How many positions the query's rate has, or the place of the first node whose rate has too many.
#[cycle(positions)]
pub fn positions_of(query: &Query) -> Result<u32, Span>
    ensures count { IfOk result (λ count.
        count ≡ size_of (rate_of (plain_of query.now.shape))) }
    ensures few { OnOk result (HasFewPositions (plain_of query.now.shape)
        × (size_of (rate_of (plain_of query.now.shape)) ≤ max_positions)) }
    ensures none { OnOk result ((columns : List Column) (standing : Standing)
        → first_where has_many_positions
        (nodes_in columns standing (plain_of query.now.shape) (places_in query.now)) ≡ None) }
    ensures first { IfErr result (λ span. (columns : List Column) (standing : Standing)
        → first_where has_many_positions
        (nodes_in columns standing (plain_of query.now.shape) (places_in query.now)) ≡ Some span) }
{
    match &query.shape {
        Shape::Atom(..) => Ok(1),
        Shape::Eps(_) => Ok(0),
        Shape::Or(first, second) => positions_of_both(first, second, query.span),
        Shape::Split(first, second, _) => positions_of_both(first, second, query.span),
        Shape::Iter(inner, ..) => positions_of(inner),
        Shape::Combine(first, second, _) => positions_of_first(first, second),
        Shape::Apply(inner, _) => positions_of(inner),
        Shape::Compose(first, second) => positions_of_first(first, second),
        Shape::Collect(_, _, rate, inner) => positions_of_rate(rate, inner, query.span),
    }
}

// The same of a node that has the positions of both operands.
#[cycle(positions)]
fn positions_of_both(first: &Query, second: &Query, span: Span) -> Result<u32, Span>
    ensures count { IfOk result (λ count. count ≡ size_of (rate_of (plain_of first.now.shape))
        + size_of (rate_of (plain_of second.now.shape))) }
    ensures few { OnOk result (HasFewPositions (plain_of first.now.shape)
        × HasFewPositions (plain_of second.now.shape)
        × (size_of (rate_of (plain_of first.now.shape))
        + size_of (rate_of (plain_of second.now.shape)) ≤ max_positions)) }
    ensures none { OnOk result ((columns : List Column) (node : Node)
        → size_of (rate_of node.query) ≡ size_of (rate_of (plain_of first.now.shape))
        + size_of (rate_of (plain_of second.now.shape))
        → first_over_two has_many_positions node columns bound first.now columns bound second.now
        ≡ None) }
    ensures first { IfErr result (λ place. (columns : List Column) (node : Node)
        → node.place ≡ span
        → size_of (rate_of node.query) ≡ size_of (rate_of (plain_of first.now.shape))
        + size_of (rate_of (plain_of second.now.shape))
        → first_over_two has_many_positions node columns bound first.now columns bound second.now
        ≡ Some place) }
{
    let counts = positions_of_two(first, second)?;
    few_together(counts.left, counts.right, span)
}

// The same of a node that has the positions of its first operand alone.
#[cycle(positions)]
fn positions_of_first(first: &Query, second: &Query) -> Result<u32, Span>
    ensures count { IfOk result (λ count. count ≡ size_of (rate_of (plain_of first.now.shape))) }
    ensures few { OnOk result (HasFewPositions (plain_of first.now.shape)
        × HasFewPositions (plain_of second.now.shape)
        × (size_of (rate_of (plain_of first.now.shape)) ≤ max_positions)) }
    ensures none { OnOk result ((columns others : List Column) (standing other : Standing)
        (node : Node) → size_of (rate_of node.query) ≡ size_of (rate_of (plain_of first.now.shape))
        → first_over_two has_many_positions node columns standing first.now others other second.now
        ≡ None) }
    ensures first { IfErr result (λ place. (columns others : List Column)
        (standing other : Standing) (node : Node)
        → first_over_two has_many_positions node columns standing first.now others other second.now
        ≡ Some place) }
{
    let counts = positions_of_two(first, second)?;
    Ok(counts.left)
}

// The same of a node that has the positions of a written rate.
#[cycle(positions)]
fn positions_of_rate(rate: &Rate, operand: &Query, span: Span) -> Result<u32, Span>
    ensures count { IfOk result (λ count. count ≡ size_of (rates.plain_of rate.now)) }
    ensures few { OnOk result (HasFewPositions (plain_of operand.now.shape)
        × (size_of (rates.plain_of rate.now) ≤ max_positions)) }
    ensures none { OnOk result ((columns : List Column) (node : Node)
        → size_of (rate_of node.query) ≡ size_of (rates.plain_of rate.now)
        → first_over has_many_positions node columns bound operand.now ≡ None) }
    ensures first { IfErr result (λ place. (columns : List Column) (node : Node)
        → node.place ≡ span → size_of (rate_of node.query) ≡ size_of (rates.plain_of rate.now)
        → first_over has_many_positions node columns bound operand.now ≡ Some place) }
{
    positions_of(operand)?;
    few_in(rate, span)
}

// The same of each of two operands.
#[cycle(positions)]
fn positions_of_two(first: &Query, second: &Query) -> Result<Counts, Span>
    ensures left { IfOk result (λ counts.
        counts.left ≡ size_of (rate_of (plain_of first.now.shape))) }
    ensures right { IfOk result (λ counts.
        counts.right ≡ size_of (rate_of (plain_of second.now.shape))) }
    ensures small { IfOk result (λ counts.
        (counts.left ≤ max_positions) × (counts.right ≤ max_positions)) }
    ensures few { OnOk result (HasFewPositions (plain_of first.now.shape)
        × HasFewPositions (plain_of second.now.shape)) }
    ensures none { OnOk result ((columns : List Column) (standing : Standing)
        → (first_in has_many_positions columns standing first.now ≡ None)
        × (first_in has_many_positions columns standing second.now ≡ None)) }
    ensures first { IfErr result (λ span. (columns others : List Column) (standing other : Standing)
        → option_or (first_in has_many_positions columns standing first.now)
        (first_in has_many_positions others other second.now) ≡ Some span) }
{
    let left = positions_of(first)?;
    let right = positions_of(second)?;
    Ok(Counts { left, right })
}

// The positions of both operands together, or the place of their node if these are too many.
fn few_together(first: u32, second: u32, span: Span) -> Result<u32, Span>
    requires first { first ≤ max_positions }
    requires second { second ≤ max_positions }
    ensures count { IfOk result (λ count. count ≡ first + second) }
    ensures few { OnOk result (first + second ≤ max_positions) }
    ensures many { IfErr result (λ place. (place ≡ span) × (max_positions < first + second)) }
{
    let count = first + second;
    if count > MAX_POSITIONS {
        return Err(span);
    }
    Ok(count)
}

// The positions of a written rate, or the place of its node if these are too many.
fn few_in(rate: &Rate, span: Span) -> Result<u32, Span>
    ensures count { IfOk result (λ count. count ≡ size_of (rates.plain_of rate.now)) }
    ensures few { OnOk result (size_of (rates.plain_of rate.now) ≤ max_positions) }
    ensures many { IfErr result (λ place. (place ≡ span)
        × (max_positions < size_of (rates.plain_of rate.now))) }
{
    let positions = rate.positions();
    if positions > MAX_POSITIONS {
        return Err(span);
    }
    Ok(positions)
}
