//! What is found for one test.

ghost use Rattle.std.specs.Prelude.{◌<◌};
ghost use Rattle.predicate_cells.specs.Cells.{cell_count};

use crate::items::Stream;
use crate::scope::Scope;
use crate::stop::Stop;
use item_schema::Schema;
use predicate_cells::{CellSet, Cells};
use predicates::{Pred, Preds, holds};
use query_model::{Query, Shape};
use std::alloc::{AllocError, Global};

/// A test of a stream, and items.
#[derive(Drop)]
pub(crate) struct Case<'t> {
    stream: Stream,
    test: Box<Pred>,
    items: &'t str,
}

impl<'t> Case<'t> {
    pub(crate) fn of(alloc: Global, stream: &str, line: &'t str) -> Result<Case<'t>, Stop> {
        let Some((test, items)) = line.split_once(" /") else {
            return Err(Stop::Line);
        };
        let stream = Stream::of(alloc, stream)?;
        let test = test_of(alloc, &stream.scope, test)?;
        Ok(Case {
            stream,
            test,
            items,
        })
    }

    /// How many cells there are and which of them meet the test, and for each item its cell and
    /// whether it meets the test.
    pub(crate) fn answer(&self, alloc: Global) -> Result<String, Stop> {
        let test = self.test.as_ref();
        let cells = cells_of(alloc, &self.stream.scope.schema, test)?;
        let mut reported = String::new(alloc);
        push_cells(alloc, &mut reported, &cells, test)?;
        self.push_items(alloc, &mut reported, &cells)?;
        Ok(reported)
    }

    fn push_items(&self, alloc: Global, reported: &mut String, cells: &Cells) -> Result<(), Stop> {
        for word in self.items.split(' ').skip(1) {
            push_item(
                alloc,
                reported,
                cells,
                self.test.as_ref(),
                &self.stream,
                word,
            )?;
        }
        Ok(())
    }
}

/// The test that is written as this text.
fn test_of(alloc: Global, scope: &Scope, text: &str) -> Result<Box<Pred>, Stop> {
    let atom = format!(in alloc; "atom({text}, 0)")?;
    let query = scope.query(alloc, atom.as_str())?;
    test_in(alloc, &query)
}

fn test_in(alloc: Global, query: &Query) -> Result<Box<Pred>, Stop> {
    match &query.shape {
        Shape::Atom(test, _) => Ok(Box::new(alloc, test.try_copy(alloc)?)?),
        _ => Err(Stop::Line),
    }
}

fn cells_of(alloc: Global, schema: &Schema, test: &Pred) -> Result<Cells, Stop> {
    let mut preds = Preds::new(alloc);
    preds.add(test)?;
    if !preds.fit(schema) {
        return Err(Stop::Test);
    }
    Ok(Cells::new(alloc, schema, &preds)?)
}

fn push_cells(
    alloc: Global,
    reported: &mut String,
    cells: &Cells,
    test: &Pred,
) -> Result<(), AllocError> {
    write!(reported, "{} cells", cells.count())?;
    push_strays(alloc, reported, cells)?;
    reported.push_str(", met by")?;
    push_met(reported, cells, test)
}

/// Appends the cells whose samples lie in other cells.
fn push_strays(alloc: Global, reported: &mut String, cells: &Cells) -> Result<(), AllocError> {
    for cell in 0..cells.count() {
        if !has_its_sample(alloc, cells, cell)? {
            write!(reported, ", the sample of {cell} in another")?;
        }
    }
    Ok(())
}

fn has_its_sample(alloc: Global, cells: &Cells, cell: u32) -> Result<bool, AllocError>
    requires { cell < cell_count cells.now }
{
    let sample = cells.sample(alloc, cell)?;
    Ok(cells.of(&sample) == cell)
}

/// Appends the cells that meet the test, as ranges.
fn push_met(reported: &mut String, cells: &Cells, test: &Pred) -> Result<(), AllocError> {
    if !cells.decides(test) {
        return reported.push_str(" no test");
    }
    let met = cells.mask(test);
    if met.is_empty() {
        return reported.push_str(" none");
    }
    push_ranges(reported, met, cells.count())
}

fn push_ranges(reported: &mut String, met: &CellSet, count: u32) -> Result<(), AllocError> {
    for cell in 0..count {
        let begins = cell == 0 || !met.has(cell - 1);
        if met.has(cell) && begins {
            write!(reported, " {cell}")?;
        }
        if met.has(cell) && !begins && !met.has(cell + 1) {
            write!(reported, "-{cell}")?;
        }
    }
    Ok(())
}

fn push_item(
    alloc: Global,
    reported: &mut String,
    cells: &Cells,
    test: &Pred,
    stream: &Stream,
    word: &str,
) -> Result<(), Stop> {
    let item = stream.item(alloc, word)?;
    let cell = cells.of(&item);
    let sign = if holds(test, &item) { '+' } else { '-' };
    Ok(write!(reported, "; {word} in {cell}{sign}")?)
}
