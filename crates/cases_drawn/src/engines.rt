//! The engines on the first items of a case.
ghost use Rattle.std.specs.Prelude.{◌≡◌, ◌↔◌, IsOk, IsTrue, nat_eq, string_bytes};
ghost use Rattle.std.specs.List.{list_all, starts_with};
ghost use Rattle.cases_drawn.specs.Kept.{is_within};

use crate::answers::Answers;
use crate::bound::bound_of;
use crate::memory::Bound;
use crate::stop::{Finding, Stop};
use crate::transcripts::{Transcript, transcript_of};
use eval_runner::Runner;
use query_model::Checked;
use slow_eval::Slow;
use std::alloc::Global;

/// Checks that both engines answer the first items as a run does, and that the runner keeps no more
/// than it may. Gives how many items these are.
pub(crate) fn ask_engines(
    alloc: Global,
    checked: &Checked,
    items: &[u8],
    answers: &Answers,
) -> Result<u64, Stop> {
    let wanted = wanted(alloc, checked, items)?;
    ask_run(&wanted, answers)?;
    ask_runner(alloc, checked, items, &wanted)?;
    Ok(wanted.kept.len() as u64)
}

/// What the engine that searches all readings answers.
fn wanted(alloc: Global, checked: &Checked, items: &[u8]) -> Result<Transcript, Stop> {
    let slow = Slow::new(alloc, checked)?;
    let wanted = transcript_of(alloc, checked, slow, items)?;
    ask_alone(&wanted)?;
    Ok(wanted)
}

/// Checks that the runner answers as wanted.
fn ask_runner(
    alloc: Global,
    checked: &Checked,
    items: &[u8],
    wanted: &Transcript,
) -> Result<(), Stop> {
    let runner = Runner::new(alloc, checked)?;
    let transcript = transcript_of(alloc, checked, runner, items)?;
    ask_alone(&transcript)?;
    ask_both(&transcript, wanted)?;
    ask_bound(bound_of(checked.main()), &transcript)
}

/// Checks that copies of an engine answer as it does, and that it can be reset.
fn ask_alone(transcript: &Transcript) -> Result<(), Stop>
    ensures { IsOk result ↔ ((transcript.now.back.items ≡ transcript.now.begun.items)
        × (transcript.now.copies.items ≡ transcript.now.answers.items)) }
{
    if transcript.back != transcript.begun {
        return Err(Stop::Found(Finding::Reset));
    }
    if transcript.copies != transcript.answers {
        return Err(Stop::Found(Finding::Copy));
    }
    Ok(())
}

/// Checks that one engine answers as the other.
fn ask_both(transcript: &Transcript, wanted: &Transcript) -> Result<(), Stop>
    ensures { IsOk result ↔ ((transcript.now.begun.items ≡ wanted.now.begun.items)
        × (transcript.now.answers.items ≡ wanted.now.answers.items)) }
{
    if transcript.begun != wanted.begun || transcript.answers != wanted.answers {
        return Err(Stop::Found(Finding::Engines));
    }
    Ok(())
}

/// Checks that no more than the bound is kept after any item.
fn ask_bound(bound: Bound, transcript: &Transcript) -> Result<(), Stop>
    ensures { IsOk result ↔ IsTrue (list_all (is_within bound) transcript.now.kept.items) }
{
    if !bound.holds(transcript.kept.as_slice()) {
        return Err(Stop::Found(Finding::Bound));
    }
    Ok(())
}

/// Checks that a run writes these answers first.
fn ask_run(transcript: &Transcript, answers: &Answers) -> Result<(), Stop>
    ensures { IsOk result ↔ IsTrue (starts_with nat_eq
        (string_bytes answers.now.answered) transcript.now.answers.items) }
{
    let run = answers.answered.as_bytes();
    if !run.starts_with(transcript.answers.as_slice()) {
        return Err(Stop::Found(Finding::Answers));
    }
    Ok(())
}
