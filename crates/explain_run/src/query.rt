//! The query: compiled, and explained if it is refused.
ghost use Rattle.std.specs.Prelude.{IfOk, MatchOption};
ghost use Rattle.query_parser.specs.Reading.{IsFileOf};
ghost use Rattle.query_syntax.specs.Files.{program_terms};
ghost use Rattle.query_syntax.specs.Plain.{plain_program};
ghost use Rattle.type_checker.specs.Judgments.{IsJudgmentOf};
ghost use Rattle.explain_run.specs.Explained.{Explains, IsAccepted};

use crate::explanations::{blame_explained, refusal_explained};
use explanation::text_explanation;
use language_base::Bytes;
use query_parser::ReadStop;
use query_syntax::{Program, read_syntax};
use std::alloc::{AllocError, Global};
use type_checker::{Judgment, judge};

/// The explanation of the refusal of a text, which is a whole query. There is none if a run accepts
/// it.
pub fn explanation_of(alloc: Global, name: &str, text: &[u8]) -> Result<Option<Bytes>, AllocError>
    ensures { IfOk result (λ shown.
        MatchOption shown (IsAccepted text.now) (Explains name.now text.now)) }
{
    match read_syntax(alloc, text) {
        Ok(program) => explanation_in(alloc, name, text, &program),
        Err(ReadStop::Refused(refusal)) => {
            Ok(Some(text_explanation(alloc, name, text, refusal)?))
        }
        Err(ReadStop::Memory) => Err(AllocError),
    }
}

// The same for a text that is this program.
fn explanation_in(
    alloc: Global,
    name: &str,
    text: &[u8],
    program: &Program,
) -> Result<Option<Bytes>, AllocError>
    requires { IsFileOf text.now (program_terms (plain_program program.now)) }
    ensures { IfOk result (λ shown.
        MatchOption shown (IsAccepted text.now) (Explains name.now text.now)) }
{
    let judgment = judge(alloc, program)?;
    explanation_by(alloc, name, text, program, &judgment)
}

// The same for a program with this judgment.
fn explanation_by(
    alloc: Global,
    name: &str,
    text: &[u8],
    program: &Program,
    judgment: &Judgment,
) -> Result<Option<Bytes>, AllocError>
    requires file { IsFileOf text.now (program_terms (plain_program program.now)) }
    requires judged { IsJudgmentOf (plain_program program.now) judgment.now }
    ensures { IfOk result (λ shown.
        MatchOption shown (IsAccepted text.now) (Explains name.now text.now)) }
{
    match judgment {
        Judgment::Accepted(_checked) => Ok(None),
        Judgment::Refused(refusal) => {
            Ok(Some(refusal_explained(alloc, name, text, program, *refusal)?))
        }
        Judgment::Ambiguous(blame) => {
            Ok(Some(blame_explained(alloc, name, text, program, blame)?))
        }
    }
}
