// Cells that no position distinguishes. A search by what the items of cells meet sees them as one.
use crate::assertions::{holds, same};
use crate::fixtures::item;
use crate::one_number::{cells_under, nfa_of};
use item_schema::{Column, Kind, Schema, are_columns};
use predicate_cells::{CellStop, Cells};
use predicates::{Pred, Preds};
use rate_expr::Rate;
use std::alloc::{AllocError, Global};
use std::process::Abort;
use std::rc::Rc;
use std::test::Fail;
use symbolic_nfa::Nfa;
use value_ops::Bytes;

// Two cells for each column make 4,096 in all.
const COLUMNS: u32 = 12;

fn texts(rt: &impl Abort, alloc: Global) -> Result<Schema, AllocError> {
    let mut columns = Vec::new(alloc);
    for number in 0..COLUMNS {
        let name = [b'a' + number as u8];
        columns.push(Column {
            name: Bytes::from_slice(alloc, &name)?,
            kind: Kind::Text,
        })?;
    }
    holds(rt, are_columns(&columns));
    Ok(Schema::new(false, columns))
}

fn boxed(alloc: Global, pred: Pred) -> Result<Box<Pred>, AllocError> {
    Ok(Box::new(alloc, pred)?)
}

// Whether each of the fields is v.
fn all_are_v(alloc: Global) -> Result<Box<Pred>, AllocError> {
    let mut all = boxed(alloc, Pred::Any)?;
    for column in 0..COLUMNS {
        let v = Bytes::from_slice(alloc, b"v")?;
        let is_v = boxed(alloc, Pred::EqText(column, v))?;
        all = boxed(alloc, Pred::And(all, is_v))?;
    }
    Ok(all)
}

// A word of one item, whose fields are all v.
fn rate(alloc: Global) -> Result<Box<Rate>, AllocError> {
    let pred = Box::into_inner(all_are_v(alloc)?);
    item(alloc, pred)
}

fn preds(alloc: Global) -> Result<Preds, AllocError> {
    let test = all_are_v(alloc)?;
    let mut preds = Preds::new(alloc);
    preds.add(&test)?;
    Ok(preds)
}

fn cells(rt: &impl Abort, alloc: Global) -> Result<Rc<Cells>, CellStop> {
    let schema = texts(rt, alloc)?;
    let preds = preds(alloc)?;
    cells_under(rt, alloc, &schema, &preds)
}

fn nfa(rt: &impl Abort, alloc: Global) -> Result<Nfa, CellStop> {
    let rate = rate(alloc)?;
    let cells = cells(rt, alloc)?;
    Ok(nfa_of(rt, alloc, &cells, &rate)?)
}

// The different sets of positions that the items of cells meet.
fn met_by_cells(alloc: Global, nfa: &Nfa) -> Result<Vec<u128>, AllocError> {
    let mut met = Vec::new(alloc);
    for cell in 0..nfa.cells().count() {
        let mask = nfa.met_by(cell);
        if !met.contains(&mask) {
            met.push(mask)?;
        }
    }
    Ok(met)
}

#[test]
fn the_cells_of_a_test_of_twelve_columns_meet_two_sets(rt: HostRuntime) -> Result<(), Fail> {
    let nfa = nfa(&rt, rt.alloc())?;
    let met = met_by_cells(rt.alloc(), &nfa)?;
    same(&rt, (nfa.cells().count(), met.len()), (4_096, 2));
    Ok(())
}
