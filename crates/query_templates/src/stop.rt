//! Why uses of templates are not replaced.
ghost use Rattle.std.specs.Prelude.{◌≡◌};
ghost use Rattle.query_templates.specs.declared.refusal.TemplateRefusal.{TemplateRefusal};
ghost use Rattle.query_templates.specs.declared.stop.TemplateStop.TheVariants.{Refused};

use crate::{TemplateCause, TemplateRefusal};
use language_base::Span;
use std::alloc::AllocError;

#[derive(Clone, Copy, Debug, PartialEq, Eq)]
pub enum TemplateStop {
    Refused(TemplateRefusal),
    Memory,
}

impl From<AllocError> for TemplateStop {
    ghost use Rattle.std.specs.Prelude.{◌≡◌};
    ghost use Rattle.query_templates.specs.declared.stop.TemplateStop.TheVariants.{Memory};

    ghost from_gives = { λ _ stop. stop ≡ Memory };

    fn from(_error: AllocError) -> TemplateStop {
        TemplateStop::Memory
    }
}

pub(crate) fn refused(cause: TemplateCause, place: Span) -> TemplateStop
    ensures { result ≡ Refused (record { cause = cause; place = place }) }
{
    TemplateStop::Refused(TemplateRefusal { cause, place })
}
