//! What holds of every runner.
ghost use Rattle.std.specs.Prelude.{◌≤◌, ◌+◌, ◌*◌};
ghost use Rattle.memory_bound.specs.KeysMet.{keys_met};
ghost use Rattle.query_model.specs.Bounds.{slots_of};
ghost use Rattle.query_model.specs.Checked.{IsChecked};
ghost use Rattle.rate_expr.specs.Words.{Word};
ghost use Rattle.eval_runner.specs.Following.{Follows, kept_of, query_of};
ghost use Rattle.eval_runner.specs.declared.runner.Runner.{Runner};

/// Whatever word it follows, a runner keeps at most the slots of its query for each key that was
/// met, and once more.
pub fn a_runner_keeps_its_slots_for_each_key()
    ensures { (runner : Runner) (word : Word) → IsChecked runner.checked.now → Follows runner word
        → kept_of runner ≤ slots_of (query_of runner) * (1 + keys_met (query_of runner) word) }
{}
