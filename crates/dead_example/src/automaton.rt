//! The automaton of a query's rate.
ghost use Rattle.std.specs.Prelude.{◌≡◌, IfOk, IfSome};
ghost use Rattle.dead_example.specs.RateAutomata.{IsOfRate};
ghost use Rattle.query_model.specs.Queries.{plain_of};
ghost use Rattle.query_model.specs.Rates.{rate_of};
ghost use Rattle.rate_expr.specs.Paths.{AreOf};
ghost use Rattle.rate_expr.specs.Plain as rates;
ghost use Rattle.rate_expr.specs.Rates.{Regex};

use item_schema::Schema;
use predicate_cells::{CellStop, Cells};
use predicates::Preds;
use query_model::Query;
use rate_expr::{MAX_POSITIONS, Positions, Rate};
use std::alloc::{AllocError, Global};
use std::rc::Rc;
use symbolic_nfa::Nfa;

/// The automaton over cells for the predicates of the rate, unless there are too many positions or
/// cells.
pub fn automaton_of(
    alloc: Global,
    schema: &Schema,
    query: &Query,
) -> Result<Option<Nfa>, AllocError>
    ensures { IfOk result (λ found.
        IfSome found (IsOfRate schema.now (rate_of (plain_of query.now.shape)))) }
{
    let rate = Box::new(alloc, query.rate(alloc)?)?;
    automaton_in(alloc, schema, &rate)
}

fn automaton_in(alloc: Global, schema: &Schema, rate: &Rate) -> Result<Option<Nfa>, AllocError>
    ensures { IfOk result (λ found.
        IfSome found (IsOfRate schema.now (rates.plain_of rate.now))) }
{
    if rate.positions() > MAX_POSITIONS {
        return Ok(None);
    }
    automaton_over(alloc, schema, Box::new(alloc, Positions::of(alloc, rate)?)?)
}

fn automaton_over(
    alloc: Global,
    schema: &Schema,
    positions: Box<Positions>,
) -> Result<Option<Nfa>, AllocError>
    ensures { (rate : Regex) → AreOf positions.value rate
        → IfOk result (λ found. IfSome found (IsOfRate schema.now rate)) }
{
    match cells_of(alloc, schema, positions.preds().distinct())? {
        Some(cells) => automaton_on(alloc, &cells, positions),
        None => Ok(None),
    }
}

// The cells that the predicates distinguish, if they can be asked and these are not too many.
fn cells_of(alloc: Global, schema: &Schema, preds: &Preds) -> Result<Option<Rc<Cells>>, AllocError>
    ensures { IfOk result (λ found. IfSome found (λ cells. cells.value.layout ≡ schema.now)) }
{
    if !preds.fit(schema) {
        return Ok(None);
    }
    match Cells::new(alloc, schema, preds) {
        Ok(cells) => Ok(Some(Rc::new(alloc, cells)?)),
        Err(CellStop::TooMany) => Ok(None),
        Err(CellStop::Memory) => Err(AllocError),
    }
}

fn automaton_on(
    alloc: Global,
    cells: &Rc<Cells>,
    positions: Box<Positions>,
) -> Result<Option<Nfa>, AllocError>
    ensures { (rate : Regex) → AreOf positions.value rate
        → IfOk result (λ found. IfSome found (IsOfRate cells.now.value.layout rate)) }
{
    if !Nfa::can_read(&positions, cells.as_ref()) {
        return Ok(None);
    }
    let nfa = Nfa::new(alloc, Box::into_inner(positions), cells)?;
    Ok(Some(nfa))
}
