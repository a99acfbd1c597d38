//! The runner is kept in a snapshot, and put back from one.

use crate::KeptRunner;
use eval_runner::Runner;
use node_dumps::dump_of_runner;
use query_model::Checked;
use restored_nodes::restored_runner;
use runner_snapshot::{Keepable, RunnerDump, SnapStop};
use std::alloc::{AllocError, Global};

impl<'q> Keepable<'q> for KeptRunner<'q> {
    ghost use Rattle.eval_snapshot.specs.Fits.{Fits};
    ghost use Rattle.eval_snapshot.specs.Means.{Means};
    ghost use Rattle.kept_runner.specs.Following.{stands_of};
    ghost use Rattle.kept_runner.specs.Kept.{fits_early, fits_spelled, means_fit, stands_after};
    ghost use Rattle.kept_runner.specs.Kept.{stands_at};

    ghost stands = { stands_of };

    ghost fits = { Fits };

    ghost means = { Means };

    fn dump(&self, alloc: Global) -> Result<RunnerDump, AllocError> {
        dump_of_runner(self.runner.checked().main(), self.runner.progress(), alloc)
    }

    fn restore(alloc: Global, checked: &'q Checked, dump: &RunnerDump) -> Result<Self, SnapStop> {
        let progress = restored_runner(alloc, checked, dump)?;
        Ok(KeptRunner {
            runner: Runner::resume(checked, progress),
        })
    }

    ghost stands_after = { stands_after };

    ghost means_fit = { means_fit };

    ghost stands_at = { stands_at };

    ghost fits_early = { fits_early };

    ghost fits_spelled = { fits_spelled };
}
