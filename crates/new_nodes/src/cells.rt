//! The cells by which the collects of a query read the items of its stream.
ghost use Rattle.std.specs.Prelude.{◌↔◌, IfOk, IsTrue};
ghost use Rattle.std.specs.Option.{option_map};
ghost use Rattle.std.specs.Rc.{rc_value};
ghost use Rattle.query_model.specs.Queries.{plain_of};
ghost use Rattle.query_model.specs.Rules.{HasNoCollect};
ghost use Rattle.eval_nodes.specs.Streams.{AreColumnsOf, CanBeMade};

use predicate_cells::{CellStop, Cells};
use query_model::{Checked, Query, Shape, cells_of};
use std::alloc::{AllocError, Global};
use std::rc::Rc;

/// The cells of the stream, if there is a collect in the query.
pub fn stream_cells(alloc: Global, checked: &Checked) -> Result<Option<Rc<Cells>>, AllocError>
    ensures made { IfOk result (λ cells. CanBeMade (option_map rc_value cells)
        (plain_of checked.now.main.shape)) }
    ensures columns { IfOk result (λ cells. AreColumnsOf (option_map rc_value cells)
        checked.now.layout.columns) }
{
    let query = checked.main();
    if has_no_collect(query) {
        return Ok(None);
    }
    match cells_of(alloc, checked.schema(), query) {
        Ok(cells) => Ok(Some(Rc::new(alloc, cells)?)),
        // The predicates of a checked query do not make too many cells.
        Err(CellStop::TooMany) => unreachable!(),
        Err(CellStop::Memory) => Err(AllocError),
    }
}

pub fn has_no_collect(query: &Query) -> bool
    ensures { IsTrue result ↔ HasNoCollect (plain_of query.now.shape) }
{
    match &query.shape {
        Shape::Atom(..) => true,
        Shape::Eps(_) => true,
        Shape::Or(left, right) => has_no_collect(left) && has_no_collect(right),
        Shape::Split(left, right, _) => has_no_collect(left) && has_no_collect(right),
        Shape::Apply(inner, _) => has_no_collect(inner),
        Shape::Combine(left, right, _) => has_no_collect(left) && has_no_collect(right),
        Shape::Iter(inner, ..) => has_no_collect(inner),
        Shape::Compose(left, right) => has_no_collect(left) && has_no_collect(right),
        Shape::Collect(..) => false,
    }
}
