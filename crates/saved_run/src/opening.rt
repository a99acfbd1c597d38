//! A snapshot is read, and its query compiled.
ghost use Rattle.std.specs.Prelude.{◌≡◌, IfErr, IfOk, IfSome, IsErrOf, OnOk};
ghost use Rattle.io_edge.specs.Counts.{FailsBy, Rose};
ghost use Rattle.query_compiler.specs.Compiled.{Compiles, KeepsRules};
ghost use Rattle.query_model.specs.Monitors.{monitor_of};
ghost use Rattle.runner_snapshot.specs.Ranges.{IsSnapshot};
ghost use Rattle.runner_snapshot.specs.Saved.{snapshot_of};
ghost use Rattle.runner_snapshot.specs.Stops.{IsStopOf};
ghost use Rattle.saved_run.specs.Opened.{IsBadFor, IsOpened, IsSpelled, ReadsFor};
ghost use Rattle.saved_run.specs.Stopped.{IsUncompiled, IsUnopened};
ghost use Rattle.type_checker.specs.Judged.{accepted};

use io_edge::{Source, TakeStop, read_to_limit};
use query_compiler::{QueryStop, compile_text};
use query_model::Checked;
use runner_snapshot::{Flaw, MAX_SNAPSHOT, Saved, SnapStop, read_saved};
use std::alloc::Global;

/// A snapshot, and the query of its text.
#[derive(Drop)]
pub struct Opened {
    pub saved: Box<Saved>,
    pub checked: Box<Checked>,
}

/// Why there is no snapshot to go on from.
#[derive(Clone, Copy, Debug, PartialEq, Eq)]
pub enum OpenStop {
    /// The source failed.
    Failed,
    /// The first flaw of its bytes; whether its dump fits its query is not asked.
    Bad(Flaw),
    Memory,
}

/// Reads a snapshot to its end, or until it is longer than one may be, and compiles its query.
pub fn open_snapshot<Q: Source>(alloc: Global, source: &mut Q) -> Result<Opened, OpenStop>
    ensures opened { IfOk result (λ opened. IfSome (Q.left source.old) (λ bytes.
        IsOpened bytes (snapshot_of opened.saved.value) (monitor_of opened.checked.value))) }
    ensures kept { IfOk result (λ opened. IsSnapshot (snapshot_of opened.saved.value)
        × KeepsRules (monitor_of opened.checked.value)) }
    ensures bad { IfErr result (λ stop. IfSome (Q.left source.old) (λ bytes. IsBadFor bytes stop)) }
    ensures end { OnOk result (Rose (Q.ends source.old) (Q.ends source.new)) }
    ensures read { ReadsFor (Q.left source.old) (Q.left source.new)
        (Q.ends source.old) (Q.ends source.new) result }
    ensures cause { FailsBy (Q.faults source.old) (Q.faults source.new)
        (IsErrOf result OpenStop.Failed) }
{
    let bytes = match read_to_limit(alloc, source, MAX_SNAPSHOT + 1) {
        Ok(bytes) => bytes,
        Err(TakeStop::Failed) => return Err(OpenStop::Failed),
        Err(TakeStop::Memory) => return Err(OpenStop::Memory),
    };
    match open_bytes(alloc, &bytes) {
        Ok(opened) => Ok(opened),
        Err(SnapStop::Bad(flaw)) => Err(OpenStop::Bad(flaw)),
        Err(SnapStop::Memory) => Err(OpenStop::Memory),
    }
}

// The snapshot that the bytes are, and its query. The form is asked before the query.
fn open_bytes(alloc: Global, bytes: &[u8]) -> Result<Opened, SnapStop>
    ensures opened { IfOk result (λ opened.
        IsOpened bytes.now (snapshot_of opened.saved.value) (monitor_of opened.checked.value)) }
    ensures kept { IfOk result (λ opened. KeepsRules (monitor_of opened.checked.value)) }
    ensures bad { IfErr result (IsUnopened bytes.now) }
{
    let saved = boxed_saved(alloc, bytes)?;
    let checked = compiled(alloc, saved.text())?;
    Ok(Opened { saved, checked })
}

fn boxed_saved(alloc: Global, bytes: &[u8]) -> Result<Box<Saved>, SnapStop>
    ensures read { IfOk result (λ saved. IsSpelled bytes.now (snapshot_of saved.value)) }
    ensures stopped { IfErr result (IsStopOf bytes.now) }
{
    let saved = read_saved(alloc, bytes)?;
    Ok(Box::new(alloc, saved)?)
}

fn compiled(alloc: Global, text: &[u8]) -> Result<Box<Checked>, SnapStop>
    ensures accepted { IfOk result (λ checked.
        Compiles text.now (accepted (monitor_of checked.value))) }
    ensures kept { IfOk result (λ checked. KeepsRules (monitor_of checked.value)) }
    ensures refused { IfErr result (IsUncompiled text.now) }
{
    match compile_text(alloc, text) {
        Ok(checked) => Ok(checked),
        Err(QueryStop::Refused(_)) => Err(SnapStop::Bad(Flaw::Query)),
        Err(QueryStop::Ambiguous(_)) => Err(SnapStop::Bad(Flaw::Query)),
        Err(QueryStop::Memory) => Err(SnapStop::Memory),
        // No source is read.
        Err(QueryStop::Failed) => unreachable!(),
    }
}
