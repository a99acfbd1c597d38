//! What is checked in each case.
ghost use Rattle.std.specs.Prelude.{◌≡◌, ◌⊎◌, OnOk};
ghost use Rattle.cases_drawn.specs.Outcomes.{IsSame};

use crate::answers::{Answers, is_bound, is_drill};
use crate::call::{Outcome, asked, run, run_slowly};
use crate::engines::ask_engines;
use crate::lines::lines_due;
use crate::refusals::rule_of;
use crate::stop::{Finding, Stop};
use crate::tally::Tally;
use query_cases::Case;
use query_model::Checked;
use query_syntax::read_syntax;
use std::alloc::Global;
use stream_run::Status;
use type_checker::check;

/// How many bytes the first reads give, and the first writes take, in a run in pieces.
const PIECES: [usize; 12] = [1, 2, 3, 1, 5, 1, 1, 8, 1, 13, 1, 100];

/// The most lines that the engine which keeps the whole word is run on.
const FEW: u32 = 12;

/// The calls on every case.
#[derive(Drop)]
struct Calls {
    check: Outcome,
    bound: Outcome,
    drill: Outcome,
    run: Outcome,
    run_in_pieces: Outcome,
}

/// Checks all that needs no second program: how calls end, and what they write.
pub(crate) fn judge(alloc: Global, case: &Case, tally: &mut Tally) -> Result<(), Stop> {
    let calls = calls_on(alloc, case)?;
    judge_calls(alloc, case, &calls, tally)
}

fn calls_on(alloc: Global, case: &Case) -> Result<Calls, Stop> {
    Ok(Calls {
        check: asked(alloc, &["check", "query"], case)?,
        bound: asked(alloc, &["bound", "query"], case)?,
        drill: asked(alloc, &["drill", "query", "20", "1"], case)?,
        run: run(alloc, case, &[])?,
        run_in_pieces: run(alloc, case, &PIECES)?,
    })
}

/// Checks that short reads and writes change nothing, and that the query is accepted or refused.
fn judge_calls(alloc: Global, case: &Case, calls: &Calls, tally: &mut Tally) -> Result<(), Stop>
    ensures pieces { OnOk result (IsSame calls.now.run calls.now.run_in_pieces) }
    ensures status { OnOk result ((calls.now.check.status ≡ Status.Done)
        ⊎ (calls.now.check.status ≡ Status.Refused)) }
{
    if !calls.run.is_as(&calls.run_in_pieces) {
        return Err(Stop::Found(Finding::Pieces));
    }
    match calls.check.status {
        Status::Done => judge_accepted(alloc, case, calls, tally),
        Status::Refused => judge_refused(alloc, case, calls, tally),
        _ => Err(Stop::Found(Finding::Status)),
    }
}

/// Checks that all calls accept the query, and write lines of their commands.
fn judge_accepted(alloc: Global, case: &Case, calls: &Calls, tally: &mut Tally) -> Result<(), Stop>
    ensures bound { OnOk result (calls.now.bound.status ≡ Status.Done) }
    ensures drill { OnOk result (calls.now.drill.status ≡ Status.Done) }
    ensures run { OnOk result (calls.now.run.status ≡ Status.Done) }
{
    if !calls.bound.is_done() || !calls.drill.is_done() || !calls.run.is_done() {
        return Err(Stop::Found(Finding::Verdicts));
    }
    if calls.check.text.as_str() != "ok\n"
        || !is_bound(calls.bound.text.as_str())
        || !is_drill(calls.drill.text.as_str())
    {
        return Err(Stop::Found(Finding::Line));
    }
    judge_run(alloc, case, &calls.run, tally)
}

/// Checks what a run writes.
fn judge_run(alloc: Global, case: &Case, run: &Outcome, tally: &mut Tally) -> Result<(), Stop> {
    let checked = checked(alloc, case.query.as_slice())?;
    let answers = Answers::of(alloc, run.text.as_str())?;
    if answers.lines != lines_due(case.items.as_slice(), checked.schema().has_header()) {
        return Err(Stop::Found(Finding::Count));
    }
    if answers.lines <= FEW && !run_slowly(alloc, case)?.is_as(run) {
        return Err(Stop::Found(Finding::Engines));
    }
    let compared = ask_engines(alloc, &checked, case.items.as_slice(), &answers)?;
    tally.add_accepted(&answers, compared);
    Ok(())
}

/// The query that the text is, read by itself.
fn checked(alloc: Global, query: &[u8]) -> Result<Checked, Stop> {
    let program = read_syntax(alloc, query)?;
    Ok(check(alloc, &program)?)
}

/// Checks that all calls refuse the query in the same way.
fn judge_refused(alloc: Global, case: &Case, calls: &Calls, tally: &mut Tally) -> Result<(), Stop>
    ensures bound { OnOk result (IsSame calls.now.bound calls.now.check) }
    ensures drill { OnOk result (IsSame calls.now.drill calls.now.check) }
    ensures run { OnOk result (IsSame calls.now.run calls.now.check) }
{
    let slow = run_slowly(alloc, case)?;
    let check = &calls.check;
    if !calls.bound.is_as(check) || !calls.drill.is_as(check) || !calls.run.is_as(check) {
        return Err(Stop::Found(Finding::Verdicts));
    }
    if !slow.is_as(check) {
        return Err(Stop::Found(Finding::Verdicts));
    }
    match rule_of(check.text.as_str(), case.query.len()) {
        Some(rule) => {
            tally.add_refused(rule);
            Ok(())
        }
        None => Err(Stop::Found(Finding::Line)),
    }
}
