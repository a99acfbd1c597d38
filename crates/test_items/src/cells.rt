// What no clause says: that samples and copies are made at all, and how many cells there may be.
// The program cases_rates goes through a table of tests and the cells that they make.
use crate::assertions::same;
use crate::fixtures::one_column;
use item_schema::{Item, Kind};
use predicate_cells::{CellStop, Cells, cells_part_items, predicates_are_met_or_not};
use predicates::{Pred, Preds};
use std::alloc::{AllocError, Global};
use std::process::Abort;
use std::test::Fail;
use value_ops::Field;

const A: u32 = 0;

fn boxed_cells(alloc: Global, cells: Cells) -> Result<Box<Cells>, AllocError> {
    Ok(Box::new(alloc, cells)?)
}

// The cells of a stream of one number. That the predicates do not fit is reported as lack of memory,
// so that only `Cells::new` says that there are too many.
fn cells_under(alloc: Global, preds: &Preds) -> Result<Box<Cells>, CellStop> {
    let schema = one_column(alloc, Kind::Int)?;
    if !preds.fit(&schema) {
        return Err(CellStop::Memory);
    }
    let cells = Cells::new(alloc, &schema, preds)?;
    Ok(boxed_cells(alloc, cells)?)
}

fn boxed(alloc: Global, pred: Pred) -> Result<Box<Pred>, AllocError> {
    Ok(Box::new(alloc, pred)?)
}

fn add_limits(alloc: Global, count: i64, preds: &mut Preds) -> Result<(), AllocError> {
    for at in 0..count {
        let pred = boxed(alloc, Pred::Lt(A, at))?;
        preds.add(&pred)?;
    }
    Ok(())
}

fn no_preds(alloc: Global) -> Result<Box<Preds>, AllocError> {
    Ok(Box::new(alloc, Preds::new(alloc))?)
}

// The cells of a test for each number up to the last: whether it is below.
fn cells_of_tests(alloc: Global, count: i64) -> Result<Box<Cells>, CellStop> {
    let mut preds = no_preds(alloc)?;
    add_limits(alloc, count, &mut preds)?;
    cells_under(alloc, &preds)
}

fn number(alloc: Global, number: i64) -> Result<Box<Item<'static>>, AllocError> {
    Ok(Box::new(alloc, Item::from_field(Field::Int(number)))?)
}

fn cell_of(alloc: Global, cells: &Cells, of: i64) -> Result<u32, AllocError> {
    let item = number(alloc, of)?;
    Ok(cells.of(&item))
}

// 4,095 beginnings make 4,096 classes of one column, and one more too many.
#[test]
fn a_column_has_4096_classes_at_most(rt: HostRuntime) -> Result<(), Fail> {
    let cells = cells_of_tests(rt.alloc(), 4_095)?;
    same(&rt, cells.count(), 4_096);
    same(&rt, cell_of(rt.alloc(), &cells, -1)?, 0);
    same(&rt, cell_of(rt.alloc(), &cells, 4_094)?, 4_095);
    let more = cells_of_tests(rt.alloc(), 4_096);
    assert!(rt; matches!(more, Err(CellStop::TooMany)));
    Ok(())
}

fn copied(alloc: Global, cells: &Cells) -> Result<Box<Cells>, AllocError> {
    boxed_cells(alloc, cells.try_copy(alloc)?)
}

// The cell of the sample of the last of these three cells.
fn cell_of_sample(rt: &impl Abort, alloc: Global, cells: &Cells) -> Result<u32, AllocError> {
    assert!(rt; cells.count() == 3);
    let sample = Box::new(alloc, cells.sample(alloc, 2)?)?;
    Ok(cells.of(&sample))
}

#[test]
fn copies_have_the_same_cells(rt: HostRuntime) -> Result<(), Fail> {
    let cells = cells_of_tests(rt.alloc(), 2)?;
    let copy = copied(rt.alloc(), &cells)?;
    same(&rt, cell_of_sample(&rt, rt.alloc(), &copy)?, 2);
    same(&rt, copy.schema().columns().len(), 1);
    cells_part_items();
    predicates_are_met_or_not();
    Ok(())
}
