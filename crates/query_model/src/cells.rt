//! The cells of a stream under the predicates of a query.
ghost use Rattle.std.specs.Prelude.{◌≡◌, [], ◌∷◌, ◌++◌, false, true, Err, IfOk, OnOk};
ghost use Rattle.predicate_cells.specs.Cells.{AllFit};
ghost use Rattle.predicates.specs.Plain as predicate;
ghost use Rattle.predicate_cells.specs.declared.stop.CellStop.TheVariants.{TooMany};
ghost use Rattle.query_model.specs.Few.{has_few_cells};
ghost use Rattle.query_model.specs.Members.{Gathers, HaveSameMembers, StandOnce};
ghost use Rattle.query_model.specs.Queries.{plain_of};
ghost use Rattle.query_model.specs.Sizes.{predicates_of};
ghost use Rattle.rate_expr.specs.Plain as rates;
ghost use Rattle.rate_expr.specs.Rates.{preds_of};

use crate::{Query, Shape};
use item_schema::Schema;
use predicate_cells::{CellStop, Cells};
use predicates::{Pred, Preds};
use rate_expr::Rate;
use std::alloc::{AllocError, Global};

/// The cells of the schema's items under the predicates of the query.
pub fn cells_of(alloc: Global, schema: &Schema, query: &Query) -> Result<Cells, CellStop>
    requires { AllFit schema.now.columns (predicates_of (plain_of query.now.shape)) }
    ensures layout { IfOk result (λ cells. cells.layout ≡ schema.now) }
    ensures members { IfOk result (λ cells.
        HaveSameMembers cells.preds (predicates_of (plain_of query.now.shape))) }
    ensures once { IfOk result (λ cells. StandOnce cells.preds) }
    ensures few { OnOk result
        (has_few_cells schema.now.columns (plain_of query.now.shape) ≡ true) }
    ensures too_many { result ≡ Err TooMany
        → has_few_cells schema.now.columns (plain_of query.now.shape) ≡ false }
{
    let mut preds = Preds::new(alloc);
    add_those_of(query, &mut preds)?;
    Cells::new(alloc, schema, &preds)
}

fn add_those_of(query: &Query, preds: &mut Preds) -> Result<(), AllocError>
    ensures { OnOk result
        (Gathers preds.old (predicates_of (plain_of query.now.shape)) preds.new) }
{
    match &query.shape {
        Shape::Atom(pred, _) => add_once(pred, preds),
        Shape::Eps(_) => Ok(()),
        Shape::Or(left, right) | Shape::Split(left, right, _) | Shape::Combine(left, right, _) => {
            add_those_of(left, preds)?;
            add_those_of(right, preds)
        }
        Shape::Iter(inner, ..) | Shape::Apply(inner, _) | Shape::Compose(inner, _) => {
            add_those_of(inner, preds)
        }
        Shape::Collect(_, sync, rate, inner) => {
            add_once(sync, preds)?;
            add_those_in(rate, preds)?;
            add_those_of(inner, preds)
        }
    }
}

fn add_those_in(rate: &Rate, preds: &mut Preds) -> Result<(), AllocError>
    ensures { OnOk result (Gathers preds.old (preds_of (rates.plain_of rate.now)) preds.new) }
{
    match rate {
        Rate::Empty => Ok(()),
        Rate::One(pred) => add_once(pred, preds),
        Rate::Seq(left, right) | Rate::Alt(left, right) => {
            add_those_in(left, preds)?;
            add_those_in(right, preds)
        }
        Rate::Star(inner) => add_those_in(inner, preds),
    }
}

fn add_once(pred: &Pred, preds: &mut Preds) -> Result<(), AllocError>
    ensures { OnOk result (Gathers preds.old (predicate.plain_of pred.now ∷ []) preds.new) }
{
    match preds.place_of(pred) {
        Some(_) => Ok(()),
        None => preds.add(pred),
    }
}
