//! How far a query is before the first item of its word.
ghost use Rattle.std.specs.Prelude.{[], IfOk};
ghost use Rattle.query_model.specs.Queries.{plain_of};
ghost use Rattle.eval_nodes.specs.Runners.{IsAt};

use eval_nodes::Progress;
use eval_tree::start;
use new_nodes::{new_node, stream_cells};
use query_model::Checked;
use std::alloc::{AllocError, Global};
use step_laws::value_of;

/// The runner's state before the first item.
pub(crate) fn open(alloc: Global, checked: &Checked) -> Result<Progress, AllocError>
    ensures { IfOk result (IsAt checked.now.layout.columns
        (plain_of checked.now.main.shape) []) }
{
    let query = checked.main();
    let cells = stream_cells(alloc, checked)?;
    let mut node = new_node(alloc, query, cells.as_ref())?;
    match start(query, &mut node, alloc, 0) {
        Ok(hit) => Ok(Progress {
            node,
            position: 0,
            answer: value_of(hit),
        }),
        Err(error) => {
            drop(node);
            Err(error)
        }
    }
}
