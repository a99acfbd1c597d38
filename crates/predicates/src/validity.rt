//! Which predicates can be asked about the items of a schema.
ghost use Rattle.std.specs.Prelude.{◌≡◌};
ghost use Rattle.predicates.specs.Fits.{fits, has_numbers, has_texts};
ghost use Rattle.predicates.specs.Plain.{plain_of};

use crate::Pred;
use item_schema::{Column, Kind, Schema};

impl Pred {
    /// Whether the column of each test exists and has the kind that the test needs.
    pub fn fits(&self, schema: &Schema) -> bool
        ensures { result ≡ fits schema.now.columns (plain_of self.now) }
    {
        fits_columns(self, schema.columns())
    }
}

fn fits_columns(pred: &Pred, columns: &[Column]) -> bool
    ensures { result ≡ fits columns.now (plain_of pred.now) }
{
    match pred {
        Pred::Any => true,
        Pred::Eq(column, _)
        | Pred::Ne(column, _)
        | Pred::Lt(column, _)
        | Pred::Le(column, _)
        | Pred::Gt(column, _)
        | Pred::Ge(column, _)
        | Pred::Between(column, _, _)
        | Pred::IsNum(column) => has_numbers(columns, *column),
        Pred::EqText(column, _) | Pred::NeText(column, _) => has_texts(columns, *column),
        Pred::And(left, right) | Pred::Or(left, right) => {
            fits_columns(left, columns) && fits_columns(right, columns)
        }
        Pred::Not(inner) => fits_columns(inner, columns),
    }
}

fn has_numbers(columns: &[Column], column: u32) -> bool
    ensures { result ≡ has_numbers columns.now column }
{
    columns.get(column as usize).is_some_and(|c| matches!(
        c.kind,
        Kind::Int | Kind::Fixed(_) | Kind::Number
    ))
}

fn has_texts(columns: &[Column], column: u32) -> bool
    ensures { result ≡ has_texts columns.now column }
{
    columns
        .get(column as usize)
        .is_some_and(|c| matches!(c.kind, Kind::Text))
}
