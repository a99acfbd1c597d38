//! Why no query is made of a program.
ghost use Rattle.std.specs.Prelude.{◌≡◌};

use language_base::{Refusal, Rule, Span};
use std::alloc::AllocError;

#[derive(Clone, Copy, Debug, PartialEq, Eq)]
pub enum CheckStop {
    /// The first rule that the program breaks.
    Refused(Refusal),
    Memory,
}

impl CheckStop {
    /// The stop of a program that breaks this rule at this place.
    pub(crate) fn refused(rule: Rule, span: Span) -> CheckStop
        ensures { result ≡ CheckStop.Refused (record { rule = rule; span = span }) }
    {
        CheckStop::Refused(Refusal { rule, span })
    }
}

impl From<AllocError> for CheckStop {
    ghost use Rattle.std.specs.Prelude.{◌≡◌};
    ghost use Rattle.query_resolver.specs.declared.stop.CheckStop.TheVariants.{Memory};

    ghost from_gives = { λ _ stop. stop ≡ Memory };

    fn from(_error: AllocError) -> CheckStop {
        CheckStop::Memory
    }
}
