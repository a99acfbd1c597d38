//! The calls of the crate: `check` gives a query or a refusal, and `judge` also the automata by
//! which an example is found.
ghost use Rattle.std.specs.Prelude.{◌≡◌, IfErr, IfOk, None, OnOk};
ghost use Rattle.query_lets.specs.Unfolded.{unfolded};
ghost use Rattle.query_model.specs.Monitors.{monitor_of};
ghost use Rattle.query_model.specs.Queries.{plain_of};
ghost use Rattle.query_model.specs.Rules.{free};
ghost use Rattle.query_syntax.specs.Limits.{IsWithin};
ghost use Rattle.query_syntax.specs.Plain.{plain_program, plain_stream};
ghost use Rattle.query_syntax.specs.Programs as syntax;
ghost use Rattle.query_resolver.specs.Findings.{CanBeAsked, places_in};
ghost use Rattle.type_checker.specs.Breaches.{IsBrokenBy};
ghost use Rattle.type_checker.specs.Judged.{IsJudged, accepted};
ghost use Rattle.type_checker.specs.Judgments.{IsJudgmentOf};
ghost use Rattle.query_resolver.specs.Nodes.{nodes_in, places_of};
ghost use Rattle.type_checker.specs.Judgments.{HasPlaces};
ghost use Rattle.query_resolver.specs.Passes.{IsMeasured};
ghost use Rattle.type_checker.specs.Stops.{IsStopOf};
ghost use Rattle.type_checker.specs.WordRules.{FirstBroken};

use crate::judgment::Judgment;
use crate::standing::Standing;
use crate::word_stop::WordStop;
use crate::words::keep_words;
use predicate_cells::Cells;
use query_model::{Checked, Query};
use query_resolver::{CheckStop, Measured, measure};
use query_syntax::Program;
use std::alloc::{AllocError, Global};
use std::rc::Rc;

/// The query of a program, or the first rule that the program breaks.
pub fn check(alloc: Global, program: &Program) -> Result<Checked, CheckStop>
    requires { IsWithin (plain_stream program.now.stream) }
    ensures accepted { IfOk result (λ made.
        IsJudged (plain_program program.now) (accepted (monitor_of made))) }
    ensures places { IfOk result (λ made.
        places_in made.main ≡ places_of (unfolded (plain_program program.now))) }
    ensures refused { IfErr result (IsStopOf (plain_program program.now)) }
{
    match judge(alloc, program)? {
        Judgment::Accepted(checked) => Ok(Box::into_inner(checked)),
        Judgment::Refused(why) => Err(CheckStop::Refused(why)),
        Judgment::Ambiguous(blame) => Err(CheckStop::Refused(blame.refusal())),
    }
}

/// The same as `check`. Where the broken rule forbids a word with two readings, the automata that
/// it is about are given too.
pub fn judge(alloc: Global, program: &Program) -> Result<Judgment, AllocError>
    requires { IsWithin (plain_stream program.now.stream) }
    ensures judged { IfOk result (IsJudgmentOf (plain_program program.now)) }
    ensures places { IfOk result (HasPlaces (plain_program program.now)) }
{
    match measure(alloc, program) {
        Ok(found) => judge_words(alloc, found),
        Err(CheckStop::Refused(why)) => Ok(Judgment::Refused(why)),
        Err(CheckStop::Memory) => Err(AllocError),
    }
}

// The judgment on a program that has passed all rules but those of words.
fn judge_words(alloc: Global, found: Measured) -> Result<Judgment, AllocError>
    requires { (program : syntax.Program) × IsMeasured program found }
    ensures judged { IfOk result (λ judgment. (program : syntax.Program)
        → IsMeasured program found → IsJudgmentOf program judgment) }
    ensures places { IfOk result (λ judgment. (program : syntax.Program)
        → IsMeasured program found → HasPlaces program judgment) }
{
    match keep_words_over(alloc, found.cells, &found.query) {
        Ok(()) => {
            let checked = Checked::new(found.schema, found.query);
            Ok(Judgment::Accepted(Box::new(alloc, checked)?))
        }
        Err(WordStop::Broken(why)) => Ok(Judgment::Refused(why)),
        Err(WordStop::Ambiguous(blame)) => Ok(Judgment::Ambiguous(blame)),
        Err(WordStop::Memory) => Err(AllocError),
    }
}

// Whether no node of the main query breaks a rule of words.
fn keep_words_over(alloc: Global, cells: Cells, query: &Query) -> Result<(), WordStop>
    requires { CanBeAsked cells (plain_of query.now.shape) }
    ensures kept { OnOk result (FirstBroken
        (nodes_in cells.layout.columns free (plain_of query.now.shape) (places_in query.now))
        None) }
    ensures refused { IfErr result (IsBrokenBy
        (nodes_in cells.layout.columns free (plain_of query.now.shape) (places_in query.now))) }
{
    let cells = shared(alloc, cells)?;
    keep_words(alloc, Standing::Free, &cells, query)?;
    Ok(())
}

fn shared(alloc: Global, cells: Cells) -> Result<Rc<Cells>, AllocError>
    ensures { IfOk result (λ shared. shared.value ≡ cells) }
{
    Ok(Rc::new(alloc, cells)?)
}
