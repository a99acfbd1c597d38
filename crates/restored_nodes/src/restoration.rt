//! A runner of a checked query is put back.
ghost use Rattle.std.specs.Prelude.{◌≡◌, IfErr, IfOk};
ghost use Rattle.query_model.specs.Queries.{plain_of};
ghost use Rattle.rate_expr.specs.Words.{Word};
ghost use Rattle.eval_nodes.specs.Plain.{seen_of};
ghost use Rattle.eval_nodes.specs.Runners.{IsAt, IsSoundOf};
ghost use Rattle.runner_snapshot.specs.Plain.{plain_runner};
ghost use Rattle.runner_snapshot.specs.Stops.{IsUnfit};
ghost use Rattle.eval_snapshot.specs.Dumped.{dumped};
ghost use Rattle.eval_snapshot.specs.Fits.{Fits};
ghost use Rattle.eval_snapshot.specs.Means.{Means};

use crate::nodes::restored_progress;
use dump_fits::fits;
use eval_nodes::Progress;
use new_nodes::stream_cells;
use query_model::Checked;
use runner_snapshot::{Flaw, RunnerDump, SnapStop};
use std::alloc::{AllocError, Global};

// A runner of which the dump is kept.
fn fitting_runner(
    alloc: Global,
    checked: &Checked,
    dump: &RunnerDump,
) -> Result<Progress, AllocError>
    requires { Fits checked.now.layout.columns (plain_of checked.now.main.shape)
        (plain_runner dump.now) }
    ensures kept { IfOk result (λ runner. dumped seen_of (plain_of checked.now.main.shape) runner
        ≡ plain_runner dump.now) }
    ensures sound { IfOk result
        (IsSoundOf seen_of checked.now.layout.columns (plain_of checked.now.main.shape)) }
    ensures word { IfOk result (λ runner. (word : Word) → Means checked.now.layout.columns
        (plain_of checked.now.main.shape) (plain_runner dump.now) word
        → IsAt checked.now.layout.columns (plain_of checked.now.main.shape) word runner) }
{
    let query = checked.main();
    let cells = stream_cells(alloc, checked)?;
    restored_progress(alloc, query, cells.as_ref(), dump)
}

/// A runner of which the dump is kept, if the dump fits. It follows each word for which the dump
/// stands.
pub fn restored_runner(
    alloc: Global,
    checked: &Checked,
    dump: &RunnerDump,
) -> Result<Progress, SnapStop>
    ensures kept { IfOk result (λ runner. dumped seen_of (plain_of checked.now.main.shape) runner
        ≡ plain_runner dump.now) }
    ensures sound { IfOk result
        (IsSoundOf seen_of checked.now.layout.columns (plain_of checked.now.main.shape)) }
    ensures word { IfOk result (λ runner. (word : Word) → Means checked.now.layout.columns
        (plain_of checked.now.main.shape) (plain_runner dump.now) word
        → IsAt checked.now.layout.columns (plain_of checked.now.main.shape) word runner) }
    ensures fit { IfOk result (λ _. Fits checked.now.layout.columns
        (plain_of checked.now.main.shape) (plain_runner dump.now)) }
    ensures unfit { IfErr result (IsUnfit (Fits checked.now.layout.columns
        (plain_of checked.now.main.shape) (plain_runner dump.now))) }
{
    if !fits(alloc, checked, dump)? {
        return Err(SnapStop::Bad(Flaw::Unfit));
    }
    Ok(fitting_runner(alloc, checked, dump)?)
}
