//! Automata whose positions may all come after each other, but for the last one.

use item_schema::{Column, Kind, Schema, are_columns};
use predicate_cells::{CellStop, Cells};
use predicates::{Pred, Preds};
use rate_expr::{MAX_POSITIONS, Positions, Rate};
use std::alloc::{AllocError, Global};
use std::rc::Rc;
use symbolic_nfa::Nfa;
use value_ops::Bytes;

/// An automaton of `size` positions. Each predicate asks whether one of two numbers is at least one
/// of `tests` bounds. There is none if positions or cells are too many.
pub(crate) fn crowd(alloc: Global, size: u32, tests: u32) -> Result<Option<Nfa>, AllocError> {
    let Some(cells) = cells(alloc, tests)? else {
        return Ok(None);
    };
    let Some(positions) = positions(alloc, size, tests)? else {
        return Ok(None);
    };
    if !Nfa::can_read(&positions, cells.as_ref()) {
        return Ok(None);
    }
    Ok(Some(Nfa::new(alloc, positions, &cells)?))
}

fn positions(alloc: Global, size: u32, tests: u32) -> Result<Option<Positions>, AllocError> {
    let rate = rate(alloc, size, tests)?;
    if rate.positions() > MAX_POSITIONS {
        return Ok(None);
    }
    Ok(Some(Positions::of(alloc, &rate)?))
}

fn boxed(alloc: Global, rate: Rate) -> Result<Box<Rate>, AllocError> {
    Ok(Box::new(alloc, rate)?)
}

// Any of the tests, again and again, and then any item.
fn rate(alloc: Global, size: u32, tests: u32) -> Result<Box<Rate>, AllocError> {
    let mut choice = boxed(alloc, Rate::Empty)?;
    for at in 1..size {
        let one = boxed(alloc, Rate::One(test(at, tests)))?;
        choice = boxed(alloc, Rate::Alt(choice, one))?;
    }
    let again = boxed(alloc, Rate::Star(choice))?;
    let any = boxed(alloc, Rate::One(Pred::Any))?;
    boxed(alloc, Rate::Seq(again, any))
}

fn test(at: u32, tests: u32) -> Pred {
    Pred::Ge(at % 2, i64::from(at / 2 % tests.max(1)))
}

// All tests, and the predicate that every item meets.
fn preds(alloc: Global, tests: u32) -> Result<Preds, AllocError> {
    let mut preds = Preds::new(alloc);
    add(&mut preds, Pred::Any)?;
    for at in 0..tests.saturating_mul(2) {
        add(&mut preds, test(at, tests))?;
    }
    Ok(preds)
}

fn add(preds: &mut Preds, pred: Pred) -> Result<(), AllocError> {
    preds.add(&pred)
}

// The cells of items of two numbers under all tests.
fn cells(alloc: Global, tests: u32) -> Result<Option<Rc<Cells>>, AllocError> {
    let Some(schema) = schema(alloc)? else {
        return Ok(None);
    };
    let preds = preds(alloc, tests)?;
    cells_under(alloc, &schema, &preds)
}

fn cells_under(
    alloc: Global,
    schema: &Schema,
    preds: &Preds,
) -> Result<Option<Rc<Cells>>, AllocError> {
    if !preds.fit(schema) {
        return Ok(None);
    }
    match Cells::new(alloc, schema, preds) {
        Ok(cells) => Ok(Some(Rc::new(alloc, cells)?)),
        Err(CellStop::TooMany) => Ok(None),
        Err(CellStop::Memory) => Err(AllocError),
    }
}

fn schema(alloc: Global) -> Result<Option<Schema>, AllocError> {
    let columns = columns(alloc)?;
    if !are_columns(&columns) {
        return Ok(None);
    }
    Ok(Some(Schema::new(false, columns)))
}

fn columns(alloc: Global) -> Result<Vec<Column>, AllocError> {
    let mut columns = Vec::new(alloc);
    for name in [b"a", b"b"] {
        columns.push(Column {
            name: Bytes::from_slice(alloc, name)?,
            kind: Kind::Int,
        })?;
    }
    Ok(columns)
}
