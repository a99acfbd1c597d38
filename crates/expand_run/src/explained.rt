//! Why a text is refused, as it is explained to a person.
ghost use Rattle.std.specs.Prelude.{◌≡◌, ◌++◌, IfOk, OnOk};
ghost use Rattle.explanation.specs.Explanations.{column_unit, place_text};
ghost use Rattle.expand_run.specs.Explanations.{Explains, aside_lines, called, heading, said_of};
ghost use Rattle.expand_run.specs.Explanations.{template_explanation};
ghost use Rattle.place_in_text.specs.Windows.{marked_line};

use crate::aside::{Aside, aside_of, place_of};
use crate::refusal_text::{remedy, template_line};
use explanation::text_explanation;
use language_base::{Bytes, Span};
use place_in_text::{Position, locate, push_marked_line};
use query_templates::TemplateRefusal;
use std::alloc::{AllocError, Global};
use template_expansion::ExpandStop;

/// What a text is called.
const NAME: &str = "-";

/// Why the text is refused.
pub(crate) fn stop_explanation(
    alloc: Global,
    text: &[u8],
    stop: ExpandStop,
) -> Result<Bytes, AllocError>
    ensures { IfOk result (Explains text.now stop) }
{
    match stop {
        ExpandStop::Refused(refusal) => Ok(text_explanation(alloc, NAME, text, refusal)?),
        ExpandStop::Template(refusal) => Ok(template_explanation(alloc, text, refusal)?),
        ExpandStop::Memory => Err(AllocError),
    }
}

// Where a template is refused, its line there, how to mend it, and the second place, if there is
// one.
fn template_explanation(
    alloc: Global,
    text: &[u8],
    refusal: TemplateRefusal,
) -> Result<Bytes, AllocError>
    ensures { IfOk result (λ shown. shown ≡ template_explanation text.now refusal) }
{
    let place = refusal.place;
    let mut shown = heading(alloc, text, place)?;
    shown.extend_from_slice(&template_line(alloc, place)?)?;
    push_marks(alloc, text, place, &mut shown)?;
    shown.extend_from_slice(remedy(refusal.cause).as_bytes())?;
    push_aside(alloc, text, aside_of(refusal.cause), &mut shown)?;
    Ok(Bytes::from_vec(shown))
}

// The line and the column of a place, as every explanation has them.
fn heading(alloc: Global, text: &[u8], place: Span) -> Result<Vec<u8>, AllocError>
    ensures { IfOk result (λ shown. shown.items ≡ heading text.now place) }
{
    let mut shown = place_text(alloc, locate(text, place.from as usize))?;
    shown.extend_from_slice(column_unit().as_bytes())?;
    Ok(shown)
}

fn place_text(alloc: Global, position: Position) -> Result<Vec<u8>, AllocError>
    ensures { IfOk result (λ shown.
        shown.items ≡ place_text called position.line position.column) }
{
    let Position { line, column } = position;
    let mut shown = String::from_str(alloc, NAME)?;
    write!(shown, ":{line}:{column}")?;
    Ok(shown.into_bytes())
}

#[tactic(auto, unfolding(explanation::specs::Explanations::column_unit))]
fn column_unit() -> &'static str
    ensures { result.now ≡ column_unit }
{
    " (the column in bytes): "
}

fn push_marks(
    alloc: Global,
    text: &[u8],
    place: Span,
    shown: &mut Vec<u8>,
) -> Result<(), AllocError>
    ensures { OnOk result (shown.new.items
        ≡ shown.old.items ++ marked_line text.now place.from place.to) }
{
    let Span { from, to } = place;
    push_marked_line(alloc, text, from as usize, to as usize, shown)
}

fn push_aside(
    alloc: Global,
    text: &[u8],
    aside: Option<Aside>,
    shown: &mut Vec<u8>,
) -> Result<(), AllocError>
    ensures { OnOk result (shown.new.items ≡ shown.old.items ++ aside_lines text.now aside) }
{
    let Some(aside) = aside else {
        return Ok(());
    };
    let place = place_of(aside);
    shown.extend_from_slice(&heading(alloc, text, place)?)?;
    shown.extend_from_slice(said_of(aside).as_bytes())?;
    push_marks(alloc, text, place, shown)
}

fn said_of(aside: Aside) -> &'static str
    ensures { result.now ≡ said_of aside }
{
    match aside {
        Aside::Kind(_) => "It stands at another kind of place here.\n",
        Aside::Parameter(_) => "Its parameter stands here.\n",
    }
}
