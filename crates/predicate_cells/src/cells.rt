//! The cells of a stream: no predicate distinguishes the items of one cell.
ghost use Rattle.std.specs.Prelude.{◌≡◌, ◌≤◌, ◌<◌, ◌↔◌, IsTrue, IfOk, OnOk};
ghost use Rattle.std.specs.List.{All, Contains};
ghost use Rattle.std.specs.List.Sorted.{IsStrictlyIncreasing};
ghost use Rattle.language_base.specs.Limits.{max_cells};
ghost use Rattle.predicate_cells.specs.Marks.{Marks};
ghost use Rattle.predicates.specs.Plain.{plain_of};
ghost use Rattle.predicate_cells.specs.Cells.{cell_count, cell_of, count_from, AllFit, IsIn};

use crate::classes::Classes;
use crate::columns::{cell_among, classes_of, copies_of, count_of, fields_of};
use crate::masks::{masks_like, masks_of};
use crate::{CellSet, CellStop};
use item_schema::{Item, Schema};
use predicates::{Pred, Preds};
use std::alloc::{AllocError, Global};
use std::marker::Model;

/// The cells of a schema's items under some predicates, seen as the schema and these predicates.
/// For each predicate in the list the cells whose items meet it are found once, when `Cells` is
/// made.
#[derive(Drop)]
pub struct Cells {
    schema: Schema,
    preds: Preds,
    columns: Vec<Classes>,
    count: u32,
    // For each predicate, the cells whose items meet it.
    masks: Vec<CellSet>,
}

impl Model for Cells {
    ghost use Rattle.std.specs.Prelude.{◌≡◌, ◌≤◌, map};
    ghost use Rattle.std.specs.Coded.{codes};
    ghost use Rattle.language_base.specs.Limits.{max_cells};
    ghost use Rattle.predicates.specs.Coding.{coded_predicate};
    ghost use Rattle.predicate_cells.specs.Cells.{Partition, cell_count, AllFit};
    ghost use Rattle.predicate_cells.specs.Ranks.{ranks_from};
    ghost use Rattle.predicate_cells.specs.Samples.{mask_in};

    ghost Value = { Partition };

    ghost coded = { Prim.hlevel (codes, coded_predicate) };

    ghost view = { λ c. record { layout = c.schema; preds = c.preds } };

    ghost invariant = { λ c. AllFit c.schema.columns c.preds × (c.count ≤ max_cells)
        × (c.count ≡ cell_count (record { layout = c.schema; preds = c.preds }))
        × (c.columns.items ≡ ranks_from 0 c.schema.columns c.preds)
        × (c.masks.items ≡ map (mask_in c.columns.items) c.preds) };
}

impl Cells {
    ghost use Rattle.predicate_cells.specs.declared.stop.CellStop.TheVariants.{TooMany};

    /// Finds the cells, and for each predicate those whose items meet it.
    pub fn new(alloc: Global, schema: &Schema, preds: &Preds) -> Result<Cells, CellStop>
        requires { AllFit schema.now.columns preds.now }
        ensures ok { IfOk result (λ cells.
            cells ≡ record { layout = schema.now; preds = preds.now }) }
        ensures few { OnOk result (count_from 0 schema.now.columns preds.now ≤ max_cells) }
        ensures too_many { result ≡ Err TooMany
            → max_cells < count_from 0 schema.now.columns preds.now }
    {
        let columns = classes_of(alloc, schema.columns(), preds.as_slice())?;
        let Some(count) = count_of(&columns) else {
            return Err(CellStop::TooMany);
        };
        let masks = masks_of(alloc, &columns, preds.as_slice())?;
        Ok(Cells {
            schema: schema.try_copy(alloc)?,
            preds: preds.try_copy(alloc)?,
            columns,
            count,
            masks,
        })
    }

    pub fn try_copy(&self, alloc: Global) -> Result<Cells, AllocError>
        ensures { IfOk result (λ copy. copy ≡ self.now) }
    {
        Ok(Cells {
            schema: self.schema.try_copy(alloc)?,
            preds: self.preds.try_copy(alloc)?,
            columns: copies_of(alloc, &self.columns)?,
            count: self.count,
            masks: masks_like(alloc, &self.masks)?,
        })
    }

    pub fn schema(&self) -> &Schema
        ensures { result.now ≡ self.now.layout }
    {
        &self.schema
    }

    /// The cell of an item. If it is not an item of the schema, some cell is given.
    pub fn of(&self, item: &Item) -> u32
        ensures cell { result ≡ cell_of self.now item.now }
        ensures below { result < cell_count self.now }
    {
        cell_among(&self.columns, item.fields())
    }

    /// Some item of the cell.
    pub fn sample(&self, alloc: Global, cell: u32) -> Result<Item<'static>, AllocError>
        requires { cell < cell_count self.now }
        ensures { IfOk result (IsIn self.now cell) }
    {
        Ok(Item::from_fields(fields_of(alloc, &self.columns, cell)?))
    }

    /// Whether the predicate is one of those with which the cells were made.
    pub fn decides(&self, pred: &Pred) -> bool
        ensures { IsTrue result ↔ Contains self.now.preds (plain_of pred.now) }
    {
        self.preds.place_of(pred).is_some()
    }

    /// The cells whose items meet the predicate, as found when the cells were made.
    pub fn mask(&self, pred: &Pred) -> &CellSet
        requires { Contains self.now.preds (plain_of pred.now) }
        ensures met { Marks self.now (plain_of pred.now) result.now }
        ensures below { All (λ cell. cell < cell_count self.now) result.now }
        ensures rise { IsStrictlyIncreasing result.now }
    {
        match self.preds.place_of(pred) {
            Some(place) => &self.masks[place],
            None => unreachable!(),
        }
    }

    /// How many cells there are, at most 4,096.
    pub fn count(&self) -> u32
        ensures count { result ≡ cell_count self.now }
        ensures few { result ≤ max_cells }
        ensures fit { AllFit self.now.layout.columns self.now.preds }
    {
        self.count
    }
}
