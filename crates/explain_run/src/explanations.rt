//! The explanation of the refusal of a program, followed by an example for it.
ghost use Rattle.std.specs.Prelude.{◌≡◌, ◌++◌, IfOk};
ghost use Rattle.query_parser.specs.Reading.{IsFileOf};
ghost use Rattle.query_syntax.specs.Files.{program_terms};
ghost use Rattle.query_syntax.specs.Plain.{plain_program};
ghost use Rattle.explanation.specs.Explanations.{program_explanation};
ghost use Rattle.type_checker.specs.Blames.{ForbidsTwoReadings, IsBlameOf, refusal_of};
ghost use Rattle.explain_run.specs.Appended.{found_text};
ghost use Rattle.explain_run.specs.Explained.{ExplainsProgram};

use crate::distinction::found_apart;
use crate::findings::{Found, push_found};
use crate::readings::drawn_readings;
use explanation::program_explanation;
use language_base::{Bytes, Refusal};
use query_syntax::Program;
use std::alloc::{AllocError, Global};
use type_checker::Blame;

/// The explanation of a refusal by a rule that does not forbid words with two readings.
pub(crate) fn refusal_explained(
    alloc: Global,
    name: &str,
    text: &[u8],
    program: &Program,
    refusal: Refusal,
) -> Result<Bytes, AllocError>
    requires { ForbidsTwoReadings refusal.rule → ⊥ }
    ensures { IfOk result
        (ExplainsProgram name.now text.now (plain_program program.now) refusal) }
{
    let found = found_apart(alloc, text, program, refusal)?;
    explained(alloc, name, text, program, refusal, &found)
}

/// The explanation of a refusal by a rule that forbids a word with two readings.
pub(crate) fn blame_explained(
    alloc: Global,
    name: &str,
    text: &[u8],
    program: &Program,
    blame: &Blame,
) -> Result<Bytes, AllocError>
    requires file { IsFileOf text.now (program_terms (plain_program program.now)) }
    requires blamed { IsBlameOf (plain_program program.now) blame.now }
    ensures { IfOk result
        (ExplainsProgram name.now text.now (plain_program program.now) (refusal_of blame.now)) }
{
    let found = Found::Readings(drawn_readings(alloc, blame)?);
    explained(alloc, name, text, program, blame.refusal(), &found)
}

// The explanation of the refusal, followed by the lines of what was found.
fn explained(
    alloc: Global,
    name: &str,
    text: &[u8],
    program: &Program,
    refusal: Refusal,
    found: &Found,
) -> Result<Bytes, AllocError>
    ensures { IfOk result (λ shown. shown
        ≡ program_explanation name.now text.now (plain_program program.now) refusal
        ++ found_text found.now) }
{
    let explanation = program_explanation(alloc, name, text, program, refusal)?;
    let mut shown = Vec::from_slice(alloc, explanation.as_slice())?;
    push_found(found, &mut shown)?;
    Ok(Bytes::from_vec(shown))
}
