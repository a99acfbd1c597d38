//! The lines of a refusal.
ghost use Rattle.std.specs.Prelude.{◌≡◌, ◌++◌, IfOk, OnOk};
ghost use Rattle.expand_run.specs.RefusalTexts.{Tells, remedy, see_line, template_line};
ghost use Rattle.expand_run.specs.RefusalTexts.{template_text};

use crate::aside::{Aside, aside_of, place_of};
use language_base::{Bytes, Span};
use query_templates::{TemplateCause, TemplateRefusal};
use report_writer::refusal_text;
use std::alloc::{AllocError, Global};
use template_expansion::ExpandStop;

/// Why a text is refused.
pub(crate) fn stop_text(alloc: Global, stop: ExpandStop) -> Result<Bytes, AllocError>
    ensures { IfOk result (Tells stop) }
{
    match stop {
        ExpandStop::Refused(refusal) => Ok(refusal_text(alloc, refusal)?),
        ExpandStop::Template(refusal) => Ok(template_text(alloc, refusal)?),
        ExpandStop::Memory => Err(AllocError),
    }
}

// Where a template is refused, how to mend it, and the second place, if there is one.
fn template_text(alloc: Global, refusal: TemplateRefusal) -> Result<Bytes, AllocError>
    ensures { IfOk result (λ text. text ≡ template_text refusal) }
{
    let mut text = template_line(alloc, refusal.place)?;
    text.extend_from_slice(remedy(refusal.cause).as_bytes())?;
    push_see(alloc, aside_of(refusal.cause), &mut text)?;
    Ok(Bytes::from_vec(text))
}

/// That a template is refused, and where.
pub(crate) fn template_line(alloc: Global, place: Span) -> Result<Vec<u8>, AllocError>
    ensures { IfOk result (λ line. line.items ≡ template_line place) }
{
    let Span { from, to } = place;
    let mut line = String::from_str(alloc, "refused template ")?;
    write!(line, "{from}..{to}\n")?;
    Ok(line.into_bytes())
}

fn push_see(alloc: Global, aside: Option<Aside>, text: &mut Vec<u8>) -> Result<(), AllocError>
    ensures { OnOk result (text.new.items ≡ text.old.items ++ see_line aside) }
{
    let Some(aside) = aside else {
        return Ok(());
    };
    let Span { from, to } = place_of(aside);
    let line = format!(in alloc; "see {from}..{to}\n")?;
    text.extend_from_slice(line.as_bytes())
}

/// How to mend a template.
pub(crate) fn remedy(cause: TemplateCause) -> &'static str
    ensures { result.now ≡ remedy cause }
{
    match cause {
        TemplateCause::Form => {
            "A definition is def(NAME, BODY) or def(NAME(PARAMETER, ..), BODY): write it so.\n"
        }
        TemplateCause::Misplaced => {
            "Definitions stand before all other terms: move this one to the front.\n"
        }
        TemplateCause::Reserved => "The language has this name: choose another one.\n",
        TemplateCause::Twice => "This name is taken: choose another one.\n",
        TemplateCause::Applied => "A parameter has no arguments: write its name alone.\n",
        TemplateCause::Unknown => {
            "Neither the language nor a template before this one has this name: define it above.\n"
        }
        TemplateCause::TooFew => {
            "An argument is missing: write one for each parameter of the template.\n"
        }
        TemplateCause::TooMany => {
            "There are too many arguments: write one for each parameter of the template.\n"
        }
        TemplateCause::Large => {
            "With all uses replaced the text has over 65,536 bytes: use templates less often.\n"
        }
        TemplateCause::Deep => {
            "With all uses replaced terms are nested in more than 64 levels: nest fewer uses.\n"
        }
        TemplateCause::TwoKinds(_) => {
            "A parameter stands at places of one kind: use two parameters.\n"
        }
        TemplateCause::OtherKind(_) => {
            "The place of its parameter takes another kind of argument: write one of that kind.\n"
        }
    }
}
