// A stream of items of one number, the cells of such a stream, and automata over them.
ghost use Rattle.std.specs.Prelude.{◌≡◌, IfOk};

use crate::assertions::holds;
use item_schema::{Column, Kind, Schema};
use predicate_cells::{CellStop, Cells};
use predicates::{Pred, Preds};
use rate_expr::{MAX_POSITIONS, Positions, Rate};
use std::alloc::{AllocError, Global};
use std::process::Abort;
use std::rc::Rc;
use symbolic_nfa::Nfa;
use value_ops::Bytes;

pub(crate) fn numbers(alloc: Global) -> Result<Schema, AllocError> {
    let name = Bytes::from_slice(alloc, b"a")?;
    let mut columns = Vec::new(alloc);
    columns.push(Column {
        name,
        kind: Kind::Int,
    })?;
    Ok(Schema::new(false, columns))
}

fn shared(alloc: Global, cells: Cells) -> Result<Rc<Cells>, AllocError> {
    Ok(Rc::new(alloc, cells)?)
}

pub(crate) fn cells_under(
    rt: &impl Abort,
    alloc: Global,
    schema: &Schema,
    preds: &Preds,
) -> Result<Rc<Cells>, CellStop> {
    holds(rt, preds.fit(schema));
    Ok(shared(alloc, Cells::new(alloc, schema, preds)?)?)
}

pub(crate) fn any_item(alloc: Global) -> Result<Preds, AllocError> {
    let mut preds = Preds::new(alloc);
    preds.add(&Pred::Any)?;
    Ok(preds)
}

// A single cell for all items.
fn cells(rt: &impl Abort, alloc: Global) -> Result<Rc<Cells>, CellStop> {
    let schema = numbers(alloc)?;
    let preds = any_item(alloc)?;
    cells_under(rt, alloc, &schema, &preds)
}

pub(crate) fn nfa_of(
    rt: &impl Abort,
    alloc: Global,
    cells: &Rc<Cells>,
    rate: &Rate,
) -> Result<Nfa, AllocError>
    ensures { IfOk result (λ nfa. nfa.cells ≡ cells.now.value) }
{
    holds(rt, rate.positions() <= MAX_POSITIONS);
    let positions = Positions::of(alloc, rate)?;
    holds(rt, Nfa::can_read(&positions, cells.as_ref()));
    Nfa::new(alloc, positions, cells)
}

pub(crate) fn nfa(rt: &impl Abort, alloc: Global, rate: &Rate) -> Result<Nfa, CellStop> {
    let cells = cells(rt, alloc)?;
    Ok(nfa_of(rt, alloc, &cells, rate)?)
}

// Two automata over the same cells.
#[derive(Drop)]
pub(crate) struct Automata {
    pub(crate) first: Nfa,
    pub(crate) second: Nfa,
}

fn automata_over(
    rt: &impl Abort,
    alloc: Global,
    cells: &Rc<Cells>,
    first: &Rate,
    second: &Rate,
) -> Result<Automata, AllocError>
    ensures { IfOk result (λ automata. automata.first.cells ≡ automata.second.cells) }
{
    let first = nfa_of(rt, alloc, cells, first)?;
    let second = nfa_of(rt, alloc, cells, second)?;
    Ok(Automata { first, second })
}

pub(crate) fn automata_of(
    rt: &impl Abort,
    alloc: Global,
    first: &Rate,
    second: &Rate,
) -> Result<Automata, CellStop>
    ensures { IfOk result (λ automata. automata.first.cells ≡ automata.second.cells) }
{
    let cells = cells(rt, alloc)?;
    Ok(automata_over(rt, alloc, &cells, first, second)?)
}
