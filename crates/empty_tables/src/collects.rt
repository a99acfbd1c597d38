//! The search for a collect whose table stays empty.
ghost use Rattle.std.specs.Prelude.{IfOk};
ghost use Rattle.empty_tables.specs.EmptyTables.{IsFound, IsFoundInEither};
ghost use Rattle.empty_tables.specs.OwnItems.{CanBeAsked};
ghost use Rattle.query_model.specs.Queries.{plain_of};

use crate::own_items::have_own_item;
use language_base::Span;
use predicate_cells::{CellStop, Cells};
use query_model::{Checked, Query, Shape, cells_of};
use std::alloc::{AllocError, Global};

/// The place of the first collect whose table has no key on any word.
pub fn empty_table(alloc: Global, query: &Checked) -> Result<Option<Span>, AllocError>
    ensures { IfOk result (IsFound query.now.layout.columns query.now.main) }
{
    match cells_of(alloc, query.schema(), query.main()) {
        Ok(cells) => Ok(empty_in(&cells, query.main())),
        // The predicates of a checked query do not make too many cells.
        Err(CellStop::TooMany) => unreachable!(),
        Err(CellStop::Memory) => Err(AllocError),
    }
}

// The same of a query on the items that the cells are of.
#[cycle(empty)]
fn empty_in(cells: &Cells, query: &Query) -> Option<Span>
    requires { CanBeAsked cells.now (plain_of query.now.shape) }
    ensures { IsFound cells.now.layout.columns query.now result }
{
    match &query.shape {
        Shape::Atom(..) => None,
        Shape::Eps(_) => None,
        Shape::Or(left, right) => empty_in_either(cells, left, right),
        Shape::Split(left, right, _) => empty_in_either(cells, left, right),
        Shape::Iter(inner, ..) => empty_in(cells, inner),
        Shape::Combine(left, right, _) => empty_in_either(cells, left, right),
        Shape::Apply(inner, _) => empty_in(cells, inner),
        Shape::Compose(left, _) => empty_in(cells, left),
        Shape::Collect(_, sync, rate, _) => {
            if have_own_item(cells, sync, rate) {
                return None;
            }
            Some(query.span)
        }
    }
}

#[cycle(empty)]
fn empty_in_either(cells: &Cells, left: &Query, right: &Query) -> Option<Span>
    requires left { CanBeAsked cells.now (plain_of left.now.shape) }
    requires right { CanBeAsked cells.now (plain_of right.now.shape) }
    ensures { IsFoundInEither cells.now.layout.columns left.now right.now result }
{
    match empty_in(cells, left) {
        Some(span) => Some(span),
        None => empty_in(cells, right),
    }
}
