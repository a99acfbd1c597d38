//! The text of an explanation.
ghost use Rattle.std.specs.Prelude.{◌≡◌, ◌++◌, IfOk, OnOk};
ghost use Rattle.query_syntax.specs.Plain.{plain_program};
ghost use Rattle.explanation.specs.Asides.{place_aside, said_of_place};
ghost use Rattle.explanation.specs.Explanations.{aside_lines, column_unit, explanation, heading};
ghost use Rattle.explanation.specs.Explanations.{place_text, program_explanation, text_explanation};

use crate::advice::push_advice;
use crate::aside::{Aside, aside_of};
use crate::culprit::Culprit;
use crate::culprit_line::push_culprit;
use crate::culprit_search::culprit_of;
use crate::limit::{Limit, limit_of};
use language_base::{Bytes, Refusal, Span};
use place_in_text::{Position, locate, push_marked_line};
use query_syntax::Program;
use report_writer::refusal_text;
use std::alloc::{AllocError, Global};

/// The explanation for a text that is not a program: where it is refused, its line there, the rule,
/// how to mend it, and a hint if there is one.
pub fn text_explanation(
    alloc: Global,
    name: &str,
    text: &[u8],
    refusal: Refusal,
) -> Result<Bytes, AllocError>
    ensures { IfOk result (λ shown. shown ≡ text_explanation name.now text.now refusal) }
{
    explanation(alloc, name, text, refusal, None, None, None)
}

/// The same for a text that is this program. It also has the limit that is exceeded, the name that
/// the refusal is about and a second place, where there are such.
pub fn program_explanation(
    alloc: Global,
    name: &str,
    text: &[u8],
    program: &Program,
    refusal: Refusal,
) -> Result<Bytes, AllocError>
    ensures { IfOk result (λ shown.
        shown ≡ program_explanation name.now text.now (plain_program program.now) refusal) }
{
    let limit = limit_of(alloc, program, refusal)?;
    let culprit = culprit_of(alloc, program, refusal)?;
    let aside = aside_of(alloc, program, refusal)?;
    explanation(alloc, name, text, refusal, limit, culprit, aside)
}

#[tactic(auto, unfolding(crate::specs::Explanations::explanation))]
fn explanation(
    alloc: Global,
    name: &str,
    text: &[u8],
    refusal: Refusal,
    limit: Option<Limit>,
    culprit: Option<Culprit>,
    aside: Option<Aside>,
) -> Result<Bytes, AllocError>
    ensures { IfOk result (λ shown.
        shown ≡ explanation name.now text.now refusal limit culprit aside) }
{
    let Span { from, to } = refusal.span;
    let mut shown = heading(alloc, name, locate(text, from as usize), refusal)?;
    push_marked_line(alloc, text, from as usize, to as usize, &mut shown)?;
    push_advice(text, refusal, limit, &mut shown)?;
    push_culprit(text, culprit, &mut shown)?;
    push_aside(alloc, name, text, aside, &mut shown)?;
    Ok(Bytes::from_vec(shown))
}

#[tactic(auto, unfolding(crate::specs::Explanations::heading))]
fn heading(
    alloc: Global,
    name: &str,
    position: Position,
    refusal: Refusal,
) -> Result<Vec<u8>, AllocError>
    ensures { IfOk result (λ shown.
        shown.items ≡ heading name.now position.line position.column refusal) }
{
    let mut shown = place_text(alloc, name, position)?;
    shown.extend_from_slice(column_unit().as_bytes())?;
    shown.extend_from_slice(refusal_text(alloc, refusal)?.as_slice())?;
    Ok(shown)
}

fn place_text(alloc: Global, name: &str, position: Position) -> Result<Vec<u8>, AllocError>
    ensures { IfOk result (λ shown.
        shown.items ≡ place_text name.now position.line position.column) }
{
    let Position { line, column } = position;
    let mut shown = String::from_str(alloc, name)?;
    write!(shown, ":{line}:{column}")?;
    Ok(shown.into_bytes())
}

#[tactic(auto, unfolding(crate::specs::Explanations::column_unit))]
fn column_unit() -> &'static str
    ensures { result.now ≡ column_unit }
{
    " (the column in bytes): "
}

#[tactic(auto, unfolding(crate::specs::Explanations::aside_lines))]
fn push_aside(
    alloc: Global,
    name: &str,
    text: &[u8],
    aside: Option<Aside>,
    shown: &mut Vec<u8>,
) -> Result<(), AllocError>
    ensures { OnOk result (shown.new.items
        ≡ shown.old.items ++ aside_lines name.now text.now aside) }
{
    let Some(aside) = aside else {
        return Ok(());
    };
    let Span { from, to } = place_aside(aside);
    let place = place_text(alloc, name, locate(text, from as usize))?;
    shown.extend_from_slice(place.as_slice())?;
    shown.extend_from_slice(column_unit().as_bytes())?;
    shown.extend_from_slice(said_of_place(aside).as_bytes())?;
    push_marked_line(alloc, text, from as usize, to as usize, shown)
}

const USED_HERE: &str = "the let is used here, inside of another query\n";

const UNMET: &str = "the right side has no value once a value does not meet this\n";

const SINGLE_VALUE: &str = "the right side has a value on one value alone\n";

#[tactic(auto, unfolding(crate::specs::Asides::said_of_place))]
fn said_of_place(aside: Aside) -> &'static str
    ensures { result.now ≡ said_of_place aside }
{
    match aside {
        Aside::Use(_) => USED_HERE,
        Aside::Test(_) => UNMET,
        Aside::Single(_) => SINGLE_VALUE,
    }
}

fn place_aside(aside: Aside) -> Span
    ensures { result ≡ place_aside aside }
{
    match aside {
        Aside::Use(span) | Aside::Test(span) | Aside::Single(span) => span,
    }
}
