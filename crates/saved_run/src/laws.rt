//! What holds of runs that are saved and go on.
ghost use Rattle.std.specs.Prelude.{◌≡◌, ◌<◌, ◌^◌, ℕ, true, List, ◌++◌, length, Some};
ghost use Rattle.io_edge.specs.Lines.{lines};
ghost use Rattle.query_model.specs.Monitors.{Monitor};
ghost use Rattle.runner_snapshot.specs.Bytes.{Snapshot};
ghost use Rattle.saved_run.specs.Advancing.{IsAdvanced};
ghost use Rattle.saved_run.specs.Opened.{IsSpelled};
ghost use Rattle.saved_run.specs.Resuming.{IsSaidFrom};
ghost use Rattle.saved_run.specs.Saving.{IsSavedFor};
ghost use Rattle.saved_run.specs.Standing.{StandsAfter};
ghost use Rattle.stream_run.specs.Meanings.{IsMeaning, Meaning};
ghost use Rattle.stream_run.specs.Output.{answers};
ghost use Rattle.stream_run.specs.Resumed.{EndsLine};
ghost use Rattle.value_ops.specs.Texts.{IsText};

use runner_snapshot::Keepable;

/// If the first bytes are empty or end with an LF, the output of them and others is the output of
/// the first, and then what a run writes for the others that goes on from a snapshot which stands
/// after the first.
pub fn resumed_output_goes_on<'q, R: Keepable<'q>>()
    ensures { (monitor : Monitor) (meaning : Meaning) (snapshot : Snapshot)
        (first others written : List ℕ) → IsText first → EndsLine first
        → IsMeaning monitor meaning
        → let means = R.means monitor.layout.columns monitor.query in
        StandsAfter means monitor.layout first snapshot
        → IsSaidFrom means monitor snapshot (lines others true) written
        → answers meaning (lines (first ++ others) true)
        ≡ answers meaning (lines first true) ++ written }
{}

/// What a run writes for others that is carried on from there is the snapshot that a run saves
/// after all bytes, the first and the others.
pub fn what_is_carried_on_is_saved_after_all<'q, R: Keepable<'q>>()
    ensures { (monitor : Monitor) (snapshot : Snapshot)
        (first others answered bytes : List ℕ) → EndsLine first
        → let means = R.means monitor.layout.columns monitor.query in
        StandsAfter means monitor.layout first snapshot
        → IsAdvanced means monitor snapshot others answered bytes
        → IsSavedFor means snapshot.text monitor.layout (Some (first ++ others)) bytes }
{}

/// A snapshot that is saved after bytes and opened stands after them, and has the text. Only of
/// 2^63 bytes or more there could be so many items that it cannot be read.
pub fn what_is_saved_is_opened<'q, R: Keepable<'q>>()
    ensures { (monitor : Monitor) (snapshot : Snapshot) (text items bytes : List ℕ)
        → length items < 2 ^ 63
        → let means = R.means monitor.layout.columns monitor.query in
        IsSavedFor means text monitor.layout (Some items) bytes → IsSpelled bytes snapshot
        → (snapshot.text ≡ text) × StandsAfter means monitor.layout items snapshot }
{}
