//! The automata of the rates of two queries over the same cells.
ghost use Rattle.std.specs.Prelude.{◌≡◌, IfOk, IfSome};
ghost use Rattle.predicate_cells.specs.Cells.{AllFit};
ghost use Rattle.query_model.specs.Queries.{plain_of};
ghost use Rattle.query_model.specs.Rates.{rate_of};
ghost use Rattle.rate_expr.specs.Paths.{AreOf};
ghost use Rattle.rate_expr.specs.Plain as rates;
ghost use Rattle.separating_word.specs.Pairs.{AreOfRates, AreOver};

use item_schema::Schema;
use predicate_cells::{CellStop, Cells};
use predicates::Preds;
use query_model::{Checked, Query};
use rate_expr::{MAX_POSITIONS, Positions, Rate};
use std::alloc::{AllocError, Global};
use std::rc::Rc;
use symbolic_nfa::Nfa;

/// Two automata over the same cells.
#[derive(Drop)]
pub(crate) struct Automata {
    pub(crate) left: Nfa,
    pub(crate) right: Nfa,
}

/// The automata of the queries' rates, over cells for the predicates of both.
pub(crate) fn automata_of(
    alloc: Global,
    left: &Checked,
    right: &Checked,
) -> Result<Option<Automata>, AllocError>
    ensures { IfOk result (λ found. IfSome found (AreOfRates left.now right.now)) }
{
    let Some(first) = positions_of(alloc, left.main())? else {
        return Ok(None);
    };
    let Some(second) = positions_of(alloc, right.main())? else {
        return Ok(None);
    };
    match cells_of(alloc, left.schema(), &first, &second)? {
        Some(cells) => over(alloc, &cells, first, second),
        None => Ok(None),
    }
}

fn positions_of(alloc: Global, query: &Query) -> Result<Option<Box<Positions>>, AllocError>
    ensures { IfOk result (λ found. IfSome found (λ positions.
        AreOf positions.value (rate_of (plain_of query.now.shape)))) }
{
    let rate = Box::new(alloc, query.rate(alloc)?)?;
    positions_in(alloc, &rate)
}

fn positions_in(alloc: Global, rate: &Rate) -> Result<Option<Box<Positions>>, AllocError>
    ensures { IfOk result (λ found.
        IfSome found (λ positions. AreOf positions.value (rates.plain_of rate.now))) }
{
    if rate.positions() > MAX_POSITIONS {
        return Ok(None);
    }
    Ok(Some(Box::new(alloc, Positions::of(alloc, rate)?)?))
}

// The cells that the predicates of both queries distinguish.
fn cells_of(
    alloc: Global,
    schema: &Schema,
    first: &Positions,
    second: &Positions,
) -> Result<Option<Rc<Cells>>, AllocError>
    ensures { IfOk result (λ found. IfSome found (λ cells. cells.value.layout ≡ schema.now)) }
{
    let preds = preds_of_both(alloc, first, second)?;
    if !preds.fit(schema) {
        return Ok(None);
    }
    cells_over(alloc, schema, &preds)
}

fn preds_of_both(
    alloc: Global,
    first: &Positions,
    second: &Positions,
) -> Result<Preds, AllocError> {
    let mut preds = Preds::new(alloc);
    add_all(first.preds().distinct(), &mut preds)?;
    add_all(second.preds().distinct(), &mut preds)?;
    Ok(preds)
}

fn add_all(added: &Preds, preds: &mut Preds) -> Result<(), AllocError> {
    for pred in added.as_slice() {
        preds.add(pred)?;
    }
    Ok(())
}

fn cells_over(
    alloc: Global,
    schema: &Schema,
    preds: &Preds,
) -> Result<Option<Rc<Cells>>, AllocError>
    requires { AllFit schema.now.columns preds.now }
    ensures { IfOk result (λ found. IfSome found (λ cells. cells.value.layout ≡ schema.now)) }
{
    match Cells::new(alloc, schema, preds) {
        Ok(cells) => Ok(Some(Rc::new(alloc, cells)?)),
        Err(CellStop::TooMany) => Ok(None),
        Err(CellStop::Memory) => Err(AllocError),
    }
}

fn over(
    alloc: Global,
    cells: &Rc<Cells>,
    first: Box<Positions>,
    second: Box<Positions>,
) -> Result<Option<Automata>, AllocError>
    ensures { IfOk result (λ found.
        IfSome found (AreOver cells.now.value first.value second.value)) }
{
    if !Nfa::can_read(&first, cells.as_ref()) || !Nfa::can_read(&second, cells.as_ref()) {
        return Ok(None);
    }
    let left = Nfa::new(alloc, Box::into_inner(first), cells)?;
    let right = Nfa::new(alloc, Box::into_inner(second), cells)?;
    Ok(Some(Automata { left, right }))
}
