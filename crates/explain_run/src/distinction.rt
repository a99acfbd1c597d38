//! Lines that distinguish the operands of a refused combination.
ghost use Rattle.std.specs.Prelude.{IfOk, IfSome};
ghost use Rattle.query_model.specs.Monitors.{monitor_of};
ghost use Rattle.query_parser.specs.Reading.{IsFileOf};
ghost use Rattle.query_syntax.specs.Files.{program_terms};
ghost use Rattle.query_syntax.specs.Plain.{plain_program};
ghost use Rattle.query_compiler.specs.Compiled.{Compiles};
ghost use Rattle.type_checker.specs.Blames.{ForbidsTwoReadings};
ghost use Rattle.type_checker.specs.Judged.{accepted};
ghost use Rattle.explain_run.specs.Apart.{SeparatesFrom, SeparatesMain, SeparatesParts};
ghost use Rattle.explain_run.specs.Apart.{SeparatesTexts};
ghost use Rattle.explain_run.specs.Appended.{IsFound};

use crate::findings::Found;
use crate::part_text::alone;
use language_base::{Refusal, Rule, Span};
use query_model::Checked;
use query_parser::ReadStop;
use query_resolver::CheckStop;
use query_syntax::{Program, Query, read_syntax};
use separating_word::{Separation, distinguish};
use std::alloc::{AllocError, Global};
use type_checker::check;

/// Lines that distinguish the operands of a combination, if it is refused because the operands do
/// not have the same words.
pub(crate) fn found_apart(
    alloc: Global,
    text: &[u8],
    program: &Program,
    refusal: Refusal,
) -> Result<Found, AllocError>
    requires { ForbidsTwoReadings refusal.rule → ⊥ }
    ensures { IfOk result (IsFound text.now (plain_program program.now) refusal) }
{
    match refusal.rule {
        Rule::Rates => {
            let whole = alone(alloc, text, program, refusal.span)?;
            match text_apart(alloc, whole.as_slice())? {
                Some(separation) => Ok(Found::Apart(separation)),
                None => Ok(Found::Nothing),
            }
        }
        _ => Ok(Found::Nothing),
    }
}

// Lines that distinguish the operands of the text's main query.
fn text_apart(alloc: Global, text: &[u8]) -> Result<Option<Separation>, AllocError>
    ensures { IfOk result (λ found. IfSome found (SeparatesMain text.now)) }
{
    match read_syntax(alloc, text) {
        Ok(program) => program_apart(alloc, text, &program),
        Err(ReadStop::Refused(_)) => Ok(None),
        Err(ReadStop::Memory) => Err(AllocError),
    }
}

// The same for a text that is this program.
fn program_apart(
    alloc: Global,
    text: &[u8],
    program: &Program,
) -> Result<Option<Separation>, AllocError>
    requires { IsFileOf text.now (program_terms (plain_program program.now)) }
    ensures { IfOk result (λ found. IfSome found (SeparatesMain text.now)) }
{
    match &*program.main.query {
        Query::Combine { left, right, .. } => {
            parts_apart(alloc, text, program, left.span(), right.span())
        }
        _ => Ok(None),
    }
}

// Lines that distinguish two parts of the text, each as the main query.
fn parts_apart(
    alloc: Global,
    text: &[u8],
    program: &Program,
    left: Span,
    right: Span,
) -> Result<Option<Separation>, AllocError>
    ensures { IfOk result (λ found. IfSome found
        (SeparatesParts text.now (plain_program program.now) left right)) }
{
    let left_text = alone(alloc, text, program, left)?;
    let right_text = alone(alloc, text, program, right)?;
    texts_apart(alloc, left_text.as_slice(), right_text.as_slice())
}

// Lines that distinguish the queries of two texts.
fn texts_apart(alloc: Global, left: &[u8], right: &[u8]) -> Result<Option<Separation>, AllocError>
    ensures { IfOk result (λ found. IfSome found (SeparatesTexts left.now right.now)) }
{
    match compiled(alloc, left)? {
        Some(query) => apart_from(alloc, &query, right),
        None => Ok(None),
    }
}

// Lines that distinguish the query on the left from that of a text on the right.
fn apart_from(alloc: Global, left: &Checked, right: &[u8]) -> Result<Option<Separation>, AllocError>
    ensures { IfOk result (λ found.
        IfSome found (SeparatesFrom (monitor_of left.now) right.now)) }
{
    match compiled(alloc, right)? {
        Some(query) => distinguish(alloc, left, &query),
        None => Ok(None),
    }
}

// The query of a text, if a run accepts it.
fn compiled(alloc: Global, text: &[u8]) -> Result<Option<Checked>, AllocError>
    ensures { IfOk result (λ found. IfSome found
        (λ checked. Compiles text.now (accepted (monitor_of checked)))) }
{
    match read_syntax(alloc, text) {
        Ok(program) => judged(alloc, text, &program),
        Err(ReadStop::Refused(_)) => Ok(None),
        Err(ReadStop::Memory) => Err(AllocError),
    }
}

// The same for a text that is this program.
fn judged(alloc: Global, text: &[u8], program: &Program) -> Result<Option<Checked>, AllocError>
    requires { IsFileOf text.now (program_terms (plain_program program.now)) }
    ensures { IfOk result (λ found. IfSome found
        (λ checked. Compiles text.now (accepted (monitor_of checked)))) }
{
    match check(alloc, program) {
        Ok(checked) => Ok(Some(checked)),
        Err(CheckStop::Refused(_)) => Ok(None),
        Err(CheckStop::Memory) => Err(AllocError),
    }
}
