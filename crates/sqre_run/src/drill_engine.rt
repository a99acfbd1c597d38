//! The engine of a drill: that of a run.
ghost use Rattle.std.specs.Prelude.{◌≡◌, IfOk};
ghost use Rattle.query_model.specs.Monitors.{monitor_of};
ghost use Rattle.stream_run.specs.Drilled.{drilled};
ghost use Rattle.item_drill.specs.Drillable.{IsDrillable};
ghost use Rattle.stream_run.specs.Meanings.{IsMeaning, Meaning};

use eval_runner::Runner;
use language_base::Bytes;
use query_model::Checked;
use std::alloc::{AllocError, Global};
use stream_run::drill;

/// Drills the query item by item.
pub fn drill_query(
    alloc: Global,
    checked: &Checked,
    count: u32,
    seed: u64,
) -> Result<Bytes, AllocError>
    requires { IsDrillable checked.now.layout }
    ensures { IfOk result (λ line. (meaning : Meaning) → IsMeaning (monitor_of checked.now) meaning
        → line ≡ drilled meaning count seed) }
{
    let runner = Runner::new(alloc, checked)?;
    drill(alloc, checked, runner, count, seed)
}
