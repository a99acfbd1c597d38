//! The cells whose items meet a predicate.
ghost use Rattle.std.specs.Prelude.{◌≡◌, ◌≤◌, Some, map, slice_get, IfOk};
ghost use Rattle.std.specs.List.{range_with_len};
ghost use Rattle.language_base.specs.Limits.{max_cells};
ghost use Rattle.predicates.specs.Plain.{plain_of};
ghost use Rattle.predicates.specs.Predicates.{conjunction, disjunction};
ghost use Rattle.predicate_cells.specs.Ranks.{field_in, count_in, cells_in};
ghost use Rattle.predicate_cells.specs.Samples.{samples, row_of};
ghost use Rattle.predicates.specs.Truth.{holds};

use crate::class_row::ClassRow;
use crate::classes::Classes;
use crate::columns::product_of;
use crate::truths::{block_of, both, constant, either, negated, repeated};
use predicates::{Fields, Pred, holds_in};
use std::alloc::{AllocError, Global};

/// For each cell, whether its sample meets the predicate.
#[cycle(truths)]
pub(crate) fn truths_of(
    alloc: Global,
    columns: &[Classes],
    pred: &Pred,
) -> Result<Vec<bool>, AllocError>
    requires { cells_in columns.now ≤ max_cells }
    ensures { IfOk result (λ truths.
        truths.items ≡ map (holds (plain_of pred.now)) (samples columns.now)) }
{
    match pred {
        Pred::Any => constant(alloc, true, product_of(columns)),
        Pred::Eq(column, _)
        | Pred::Ne(column, _)
        | Pred::Lt(column, _)
        | Pred::Le(column, _)
        | Pred::Gt(column, _)
        | Pred::Ge(column, _)
        | Pred::Between(column, _, _)
        | Pred::EqText(column, _)
        | Pred::NeText(column, _)
        | Pred::IsNum(column) => column_truths(alloc, columns, pred, *column),
        Pred::And(left, right) => truths_of_both(alloc, columns, left, right),
        Pred::Or(left, right) => truths_of_either(alloc, columns, left, right),
        Pred::Not(inner) => {
            let truths = truths_of(alloc, columns, inner)?;
            Ok(negated(truths))
        }
    }
}

#[cycle(truths)]
fn truths_of_both(
    alloc: Global,
    columns: &[Classes],
    left: &Pred,
    right: &Pred,
) -> Result<Vec<bool>, AllocError>
    requires { cells_in columns.now ≤ max_cells }
    ensures { IfOk result (λ truths. truths.items
        ≡ map (holds (conjunction (plain_of left.now) (plain_of right.now)))
        (samples columns.now)) }
{
    let truths = truths_of(alloc, columns, left)?;
    let others = truths_of(alloc, columns, right)?;
    Ok(both(truths, &others))
}

#[cycle(truths)]
fn truths_of_either(
    alloc: Global,
    columns: &[Classes],
    left: &Pred,
    right: &Pred,
) -> Result<Vec<bool>, AllocError>
    requires { cells_in columns.now ≤ max_cells }
    ensures { IfOk result (λ truths. truths.items
        ≡ map (holds (disjunction (plain_of left.now) (plain_of right.now)))
        (samples columns.now)) }
{
    let truths = truths_of(alloc, columns, left)?;
    let others = truths_of(alloc, columns, right)?;
    Ok(either(truths, &others))
}

/// The same for a predicate that tests one column only.
fn column_truths(
    alloc: Global,
    columns: &[Classes],
    pred: &Pred,
    column: u32,
) -> Result<Vec<bool>, AllocError>
    requires { cells_in columns.now ≤ max_cells }
    ensures { IfOk result (λ truths. truths.items
        ≡ map (λ item. holds (plain_of pred.now) (row_of column (slice_get item column)))
        (samples columns.now)) }
{
    let at = column as usize;
    match columns.get(at) {
        Some(classes) => {
            let truths = class_truths(alloc, classes, pred, column)?;
            let width = product_of(&columns[at + 1..]);
            let block = block_of(alloc, &truths, width)?;
            repeated(alloc, &block, product_of(&columns[..at]))
        }
        None => constant(alloc, holds_in(pred, &Fields(&[])), product_of(columns)),
    }
}

/// For each class of a column, whether a row with nothing but a field of this class meets the
/// predicate.
fn class_truths(
    alloc: Global,
    classes: &Classes,
    pred: &Pred,
    column: u32,
) -> Result<Vec<bool>, AllocError>
    ensures { IfOk result (λ truths. truths.items
        ≡ map (λ class.
        holds (plain_of pred.now) (row_of column (Some (field_in classes.now class))))
        (range_with_len 0 (count_in classes.now))) }
{
    let mut truths = Vec::with_capacity(alloc, classes.count())?;
    for class in 0..classes.count() {
        let row = ClassRow {
            column,
            classes,
            class,
        };
        truths.push(holds_in(pred, &row))?;
    }
    Ok(truths)
}
