//! Why a text with templates stands for no file.
use language_base::Refusal;
use query_parser::ReadStop;
use query_templates::{TemplateRefusal, TemplateStop};
use std::alloc::AllocError;

#[derive(Clone, Copy, Debug, PartialEq, Eq)]
pub enum ExpandStop {
    /// The first rule of the language that is broken, by the text itself or by the file that it
    /// stands for. The place is one of the text.
    Refused(Refusal),
    /// A definition or a use of a template is wrong.
    Template(TemplateRefusal),
    Memory,
}

impl From<ReadStop> for ExpandStop {
    ghost use Rattle.std.specs.Prelude.{◌≡◌};
    ghost use Rattle.template_expansion.specs.Stops.{of_reading};

    ghost from_gives = { λ read stop. stop ≡ of_reading read };

    fn from(read: ReadStop) -> ExpandStop {
        match read {
            ReadStop::Refused(refusal) => ExpandStop::Refused(refusal),
            ReadStop::Memory => ExpandStop::Memory,
        }
    }
}

impl From<TemplateStop> for ExpandStop {
    ghost use Rattle.std.specs.Prelude.{◌≡◌};
    ghost use Rattle.template_expansion.specs.Stops.{of_template};

    ghost from_gives = { λ template stop. stop ≡ of_template template };

    fn from(template: TemplateStop) -> ExpandStop {
        match template {
            TemplateStop::Refused(refusal) => ExpandStop::Template(refusal),
            TemplateStop::Memory => ExpandStop::Memory,
        }
    }
}

impl From<AllocError> for ExpandStop {
    ghost use Rattle.std.specs.Prelude.{◌≡◌};
    ghost use Rattle.template_expansion.specs.declared.stop.ExpandStop.TheVariants.{Memory};

    ghost from_gives = { λ _ stop. stop ≡ Memory };

    fn from(_error: AllocError) -> ExpandStop {
        ExpandStop::Memory
    }
}
