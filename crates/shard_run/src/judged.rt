//! What a query text is judged to be.
ghost use Rattle.std.specs.Prelude.{IfOk};
ghost use Rattle.query_parser.specs.Reading.{IsFileOf};
ghost use Rattle.query_syntax.specs.Files.{program_terms};
ghost use Rattle.query_syntax.specs.Plain.{plain_program};
ghost use Rattle.shard_run.specs.Verdicts.{IsVerdictOn};

use language_base::Refusal;
use query_model::Checked;
use query_parser::ReadStop;
use query_syntax::{Program, read_syntax};
use std::alloc::{AllocError, Global};
use type_checker::{Judgment, judge};

/// A query, or the first rule that the text breaks.
#[derive(Drop)]
pub enum Judged {
    Accepted(Box<Checked>),
    Refused(Refusal),
}

pub fn judge_text(alloc: Global, text: &[u8]) -> Result<Judged, AllocError>
    ensures { IfOk result (IsVerdictOn text.now) }
{
    match read_syntax(alloc, text) {
        Ok(program) => program_judged(alloc, text, &program),
        Err(ReadStop::Refused(refusal)) => Ok(Judged::Refused(refusal)),
        Err(ReadStop::Memory) => Err(AllocError),
    }
}

// The same of a text that is this program.
fn program_judged(alloc: Global, text: &[u8], program: &Program) -> Result<Judged, AllocError>
    requires { IsFileOf text.now (program_terms (plain_program program.now)) }
    ensures { IfOk result (IsVerdictOn text.now) }
{
    match judge(alloc, program)? {
        Judgment::Accepted(checked) => Ok(Judged::Accepted(checked)),
        Judgment::Refused(refusal) => Ok(Judged::Refused(refusal)),
        Judgment::Ambiguous(blame) => Ok(Judged::Refused(blame.refusal())),
    }
}
