//! Whether a runner fits a checked query.
ghost use Rattle.query_model.specs.Queries.{plain_of};
ghost use Rattle.runner_snapshot.specs.Plain.{plain_runner};
ghost use Rattle.eval_snapshot.specs.Fits.{Fits};
ghost use Rattle.dump_fits.specs.Telling.{Tells};

use crate::runners::fits_runner;
use crate::stream::Stream;
use query_model::Checked;
use runner_snapshot::RunnerDump;
use std::alloc::{AllocError, Global};

/// How far a runner that is saved may be.
const MAX_POSITION: u64 = 1 << 62;

/// Whether the dump fits. It says nothing of the words for which the dump stands.
pub fn fits(alloc: Global, checked: &Checked, dump: &RunnerDump) -> Result<bool, AllocError>
    ensures { Tells result (Fits checked.now.layout.columns (plain_of checked.now.main.shape)
        (plain_runner dump.now)) }
{
    if dump.position > MAX_POSITION {
        return Ok(false);
    }
    let stream = Stream::Read(checked.schema().columns());
    fits_runner(alloc, checked.main(), &stream, dump)
}
