//! The units of the answers of a query.
ghost use Rattle.std.specs.Prelude.{◌≡◌, IfOk, map};
ghost use Rattle.query_model.specs.Queries.{plain_of};
ghost use Rattle.answer_units.specs.Scales.{column_scale};
ghost use Rattle.answer_units.specs.Units.{HasFewDigits, answer_units};

use crate::Units;
use crate::query::query_scales;
use crate::scale::Scale;
use item_schema::Column;
use query_model::Checked;
use std::alloc::{AllocError, Global};

/// In which units the answers of the query are.
pub fn answer_units(alloc: Global, checked: &Checked) -> Result<Units, AllocError>
    ensures units { IfOk result (λ units.
        units ≡ answer_units checked.now.layout.columns (plain_of checked.now.main.shape)) }
    ensures few { IfOk result HasFewDigits }
{
    let columns = column_scales(alloc, checked.schema().columns())?;
    let scales = query_scales(checked.main(), &columns, alloc)?;
    Ok(Units::common(&scales))
}

fn column_scales(alloc: Global, columns: &[Column]) -> Result<Vec<Scale>, AllocError>
    ensures { IfOk result (λ scales.
        scales.items ≡ map (λ column. column_scale column.kind) columns.now) }
{
    columns
        .iter()
        .map(|column| Scale::of_column(column.kind))
        .collect(alloc)
}
