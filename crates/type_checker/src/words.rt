//! The rules of words, at each node of a query.
ghost use Rattle.std.specs.Prelude.{◌≡◌, ◌≤◌, ◌+◌, ◌++◌, ℕ, ℤ, IfErr, IfOk, None, OnOk, List};
ghost use Rattle.item_schema.specs.Layout.{derived_layout};
ghost use Rattle.language_base.specs.Limits.{max_positions};
ghost use Rattle.predicates.specs.Predicates.{Predicate};
ghost use Rattle.rate_expr.specs.FirstLastFollow.{AreSetsOf};
ghost use Rattle.rate_expr.specs.Plain as rates;
ghost use Rattle.rate_expr.specs.Rates.{preds_of, size_of};
ghost use Rattle.query_model.specs.Queries.{choice, collect, combine, compose, iter, split};
ghost use Rattle.query_model.specs.Queries.{plain_of};
ghost use Rattle.query_model.specs.QueryTypes.{type_of};
ghost use Rattle.query_model.specs.Rates.{rate_of};
ghost use Rattle.query_model.specs.Rules as model;
ghost use Rattle.query_model.specs.Rules.{bound};
ghost use Rattle.query_resolver.specs.Findings.{AreAmong, CanBeAsked};
ghost use Rattle.type_checker.specs.Breaches.{AreOperands, IsBrokenBy};
ghost use Rattle.type_checker.specs.Breaches.{nodes_after};
ghost use Rattle.query_resolver.specs.Findings.{places_in};
ghost use Rattle.query_resolver.specs.Nodes.{nodes_in, with_one, with_two};
ghost use Rattle.type_checker.specs.Standings.{standing_of};
ghost use Rattle.type_checker.specs.WordRules.{FirstBroken};
ghost use Rattle.expressions.specs.Expressions.{Expression};

use crate::blame::Operands;
use crate::roots::{choice, collected, fed, iterated, one_item, side_by_side, split};
use crate::standing::Standing;
use crate::word_stop::WordStop;
use language_base::Span;
use predicate_cells::{CellStop, Cells};
use query_model::{Query, Shape, cells_of};
use query_resolver::values_of;
use rate_expr::{Positions, Rate};
use std::alloc::{AllocError, Global};
use std::rc::Rc;
use symbolic_nfa::Nfa;

/// The positions of the query's rate, if no node breaks a rule of words. The first node that does
/// is refused.
#[cycle(words)]
pub fn keep_words(
    alloc: Global,
    standing: Standing,
    cells: &Rc<Cells>,
    query: &Query,
) -> Result<Positions, WordStop>
    requires { CanBeAsked cells.now.value (plain_of query.now.shape) }
    ensures kept { OnOk result (FirstBroken
        (nodes_in cells.now.value.layout.columns (standing_of standing) (plain_of query.now.shape)
        (places_in query.now)) None) }
    ensures positions { IfOk result (λ sets. AreSetsOf sets (rate_of (plain_of query.now.shape))) }
    ensures refused { IfErr result (IsBrokenBy
        (nodes_in cells.now.value.layout.columns (standing_of standing) (plain_of query.now.shape)
        (places_in query.now))) }
{
    match &query.shape {
        Shape::Atom(pred, _) => one_item(alloc, cells, pred, query.span),
        Shape::Eps(_) => Ok(Positions::empty(alloc)),
        Shape::Or(left, right) => keep_choice(alloc, cells, left, right, query.span),
        Shape::Split(left, right, _) => keep_split(alloc, cells, left, right, query.span),
        Shape::Iter(inner, _, _) => keep_iteration(alloc, cells, inner, query.span),
        Shape::Combine(left, right, _) => {
            keep_combination(alloc, cells, left, right, query.span)
        }
        Shape::Apply(inner, _) => keep_words(alloc, Standing::Bound, cells, inner),
        Shape::Compose(left, right) => {
            keep_composition(alloc, standing, cells, left, right, query.span)
        }
        Shape::Collect(_, _, rate, inner) => keep_collection(alloc, cells, rate, inner, query.span),
    }
}

// The same of a choice with these operands, which stands at the place.
#[cycle(words)]
fn keep_choice(
    alloc: Global,
    cells: &Rc<Cells>,
    first: &Query,
    second: &Query,
    span: Span,
) -> Result<Positions, WordStop>
    requires first { CanBeAsked cells.now.value (plain_of first.now.shape) }
    requires second { CanBeAsked cells.now.value (plain_of second.now.shape) }
    requires few { size_of (rate_of (plain_of first.now.shape))
        + size_of (rate_of (plain_of second.now.shape)) ≤ max_positions }
    ensures kept { (standing : model.Standing) → OnOk result (FirstBroken
        (nodes_in cells.now.value.layout.columns standing
        (choice (plain_of first.now.shape) (plain_of second.now.shape))
        (with_two (places_in first.now) (places_in second.now) span)) None) }
    ensures positions { IfOk result (λ sets. AreSetsOf sets
        (rate_of (choice (plain_of first.now.shape) (plain_of second.now.shape)))) }
    ensures refused { (standing : model.Standing) → IfErr result (IsBrokenBy
        (nodes_in cells.now.value.layout.columns standing
        (choice (plain_of first.now.shape) (plain_of second.now.shape))
        (with_two (places_in first.now) (places_in second.now) span))) }
{
    let operands = keep_both(alloc, cells, first, second)?;
    choice(alloc, operands, span)
}

// The same of a split.
#[cycle(words)]
fn keep_split(
    alloc: Global,
    cells: &Rc<Cells>,
    first: &Query,
    second: &Query,
    span: Span,
) -> Result<Positions, WordStop>
    requires first { CanBeAsked cells.now.value (plain_of first.now.shape) }
    requires second { CanBeAsked cells.now.value (plain_of second.now.shape) }
    requires few { size_of (rate_of (plain_of first.now.shape))
        + size_of (rate_of (plain_of second.now.shape)) ≤ max_positions }
    ensures kept { (standing : model.Standing) (value : Expression) → OnOk result (FirstBroken
        (nodes_in cells.now.value.layout.columns standing
        (split (plain_of first.now.shape) (plain_of second.now.shape) value)
        (with_two (places_in first.now) (places_in second.now) span)) None) }
    ensures positions { (value : Expression) → IfOk result (λ sets. AreSetsOf sets
        (rate_of (split (plain_of first.now.shape) (plain_of second.now.shape) value))) }
    ensures refused { (standing : model.Standing) (value : Expression) → IfErr result (IsBrokenBy
        (nodes_in cells.now.value.layout.columns standing
        (split (plain_of first.now.shape) (plain_of second.now.shape) value)
        (with_two (places_in first.now) (places_in second.now) span))) }
{
    let operands = keep_both(alloc, cells, first, second)?;
    split(alloc, operands, span)
}

// The same of a combination.
#[cycle(words)]
fn keep_combination(
    alloc: Global,
    cells: &Rc<Cells>,
    first: &Query,
    second: &Query,
    span: Span,
) -> Result<Positions, WordStop>
    requires first { CanBeAsked cells.now.value (plain_of first.now.shape) }
    requires second { CanBeAsked cells.now.value (plain_of second.now.shape) }
    ensures kept { (standing : model.Standing) (value : Expression) → OnOk result (FirstBroken
        (nodes_in cells.now.value.layout.columns standing
        (combine (plain_of first.now.shape) (plain_of second.now.shape) value)
        (with_two (places_in first.now) (places_in second.now) span)) None) }
    ensures positions { (value : Expression) → IfOk result (λ sets. AreSetsOf sets
        (rate_of (combine (plain_of first.now.shape) (plain_of second.now.shape) value))) }
    ensures refused { (standing : model.Standing) (value : Expression) → IfErr result (IsBrokenBy
        (nodes_in cells.now.value.layout.columns standing
        (combine (plain_of first.now.shape) (plain_of second.now.shape) value)
        (with_two (places_in first.now) (places_in second.now) span))) }
{
    let operands = keep_both(alloc, cells, first, second)?;
    side_by_side(alloc, operands, span)
}

// The same of an iteration.
#[cycle(words)]
fn keep_iteration(
    alloc: Global,
    cells: &Rc<Cells>,
    operand: &Query,
    span: Span,
) -> Result<Positions, WordStop>
    requires { CanBeAsked cells.now.value (plain_of operand.now.shape) }
    ensures kept { (standing : model.Standing) (number : ℤ) (step : Expression)
        → OnOk result (FirstBroken (nodes_in cells.now.value.layout.columns standing
        (iter (plain_of operand.now.shape) number step)
        (with_one (places_in operand.now) span)) None) }
    ensures positions { (number : ℤ) (step : Expression) → IfOk result (λ sets.
        AreSetsOf sets (rate_of (iter (plain_of operand.now.shape) number step))) }
    ensures refused { (standing : model.Standing) (number : ℤ) (step : Expression)
        → IfErr result (IsBrokenBy (nodes_in cells.now.value.layout.columns standing
        (iter (plain_of operand.now.shape) number step)
        (with_one (places_in operand.now) span))) }
{
    let positions = keep_words(alloc, Standing::Bound, cells, operand)?;
    let inner = Nfa::new(alloc, positions, cells)?;
    iterated(alloc, inner, span)
}

// The same of a composition, free or bound.
#[cycle(words)]
fn keep_composition(
    alloc: Global,
    standing: Standing,
    cells: &Rc<Cells>,
    first: &Query,
    second: &Query,
    span: Span,
) -> Result<Positions, WordStop>
    requires { CanBeAsked cells.now.value
        (compose (plain_of first.now.shape) (plain_of second.now.shape)) }
    ensures kept { OnOk result (FirstBroken
        (nodes_in cells.now.value.layout.columns (standing_of standing)
        (compose (plain_of first.now.shape) (plain_of second.now.shape))
        (with_two (places_in first.now) (places_in second.now) span)) None) }
    ensures positions { IfOk result (λ sets. AreSetsOf sets (rate_of (plain_of first.now.shape))) }
    ensures refused { IfErr result (IsBrokenBy
        (nodes_in cells.now.value.layout.columns (standing_of standing)
        (compose (plain_of first.now.shape) (plain_of second.now.shape))
        (with_two (places_in first.now) (places_in second.now) span))) }
{
    let left = keep_words(alloc, standing, cells, first)?;
    keep_fed(alloc, standing, cells, first, second, span)?;
    Ok(left)
}

// The same of a collection with its operand and its written rate.
#[cycle(words)]
fn keep_collection(
    alloc: Global,
    cells: &Rc<Cells>,
    rate: &Rate,
    operand: &Query,
    span: Span,
) -> Result<Positions, WordStop>
    requires asked { CanBeAsked cells.now.value (plain_of operand.now.shape) }
    requires few { size_of (rates.plain_of rate.now) ≤ max_positions }
    requires members { AreAmong cells.now.value (preds_of (rates.plain_of rate.now)) }
    ensures kept { (standing : model.Standing) (key : List ℕ) (sync : Predicate)
        → OnOk result (FirstBroken (nodes_in cells.now.value.layout.columns standing
        (collect key sync (rates.plain_of rate.now) (plain_of operand.now.shape))
        (with_one (places_in operand.now) span)) None) }
    ensures positions { IfOk result (λ sets. AreSetsOf sets (rates.plain_of rate.now)) }
    ensures refused { (standing : model.Standing) (key : List ℕ) (sync : Predicate)
        → IfErr result (IsBrokenBy (nodes_in cells.now.value.layout.columns standing
        (collect key sync (rates.plain_of rate.now) (plain_of operand.now.shape))
        (with_one (places_in operand.now) span))) }
{
    keep_words(alloc, Standing::Bound, cells, operand)?;
    collected(alloc, cells, rate, span)
}

// The automata of two operands, if no node of theirs breaks a rule of words.
#[cycle(words)]
fn keep_both(
    alloc: Global,
    cells: &Rc<Cells>,
    first: &Query,
    second: &Query,
) -> Result<Operands, WordStop>
    requires first { CanBeAsked cells.now.value (plain_of first.now.shape) }
    requires second { CanBeAsked cells.now.value (plain_of second.now.shape) }
    ensures kept { OnOk result (FirstBroken
        (nodes_in cells.now.value.layout.columns bound (plain_of first.now.shape)
        (places_in first.now)
        ++ nodes_in cells.now.value.layout.columns bound (plain_of second.now.shape)
        (places_in second.now)) None) }
    ensures automata { IfOk result
        (AreOperands cells.now.value (plain_of first.now.shape) (plain_of second.now.shape)) }
    ensures refused { IfErr result (IsBrokenBy
        (nodes_in cells.now.value.layout.columns bound (plain_of first.now.shape)
        (places_in first.now)
        ++ nodes_in cells.now.value.layout.columns bound (plain_of second.now.shape)
        (places_in second.now))) }
{
    let left = keep_words(alloc, Standing::Bound, cells, first)?;
    let right = keep_words(alloc, Standing::Bound, cells, second)?;
    Ok(Operands {
        left: Nfa::new(alloc, left, cells)?,
        right: Nfa::new(alloc, right, cells)?,
    })
}

// The right operand of a composition, on the values of the left one, and then the composition
// itself.
#[cycle(words)]
fn keep_fed(
    alloc: Global,
    standing: Standing,
    cells: &Rc<Cells>,
    first: &Query,
    second: &Query,
    span: Span,
) -> Result<(), WordStop>
    requires { CanBeAsked cells.now.value
        (compose (plain_of first.now.shape) (plain_of second.now.shape)) }
    ensures kept { OnOk result (FirstBroken
        (nodes_after cells.now.value.layout.columns (standing_of standing)
        (plain_of first.now.shape) (plain_of second.now.shape) (places_in second.now) span)
        None) }
    ensures refused { IfErr result (IsBrokenBy
        (nodes_after cells.now.value.layout.columns (standing_of standing)
        (plain_of first.now.shape) (plain_of second.now.shape) (places_in second.now) span)) }
{
    let values = cells_between(alloc, cells.as_ref(), first, second)?;
    let right = keep_words(alloc, standing, &values, second)?;
    fed(alloc, standing, &values, right, span)
}

// The cells of the left operand's values under the predicates of the right one. They are few, since
// the pass over cells came before.
fn cells_between(
    alloc: Global,
    cells: &Cells,
    left: &Query,
    right: &Query,
) -> Result<Rc<Cells>, AllocError>
    requires { CanBeAsked cells.now
        (compose (plain_of left.now.shape) (plain_of right.now.shape)) }
    ensures layout { IfOk result (λ values. values.value.layout
        ≡ derived_layout (type_of cells.now.layout.columns (plain_of left.now.shape))) }
    ensures asked { IfOk result (λ values.
        CanBeAsked values.value (plain_of right.now.shape)) }
{
    let values = values_of(alloc, cells.schema(), left)?;
    match cells_of(alloc, &values, right) {
        Ok(cells) => Ok(Rc::new(alloc, cells)?),
        Err(CellStop::TooMany) => unreachable!(),
        Err(CellStop::Memory) => Err(AllocError),
    }
}
