//! Why a query does not pass the rules of words.
ghost use Rattle.std.specs.Prelude.{◌≡◌};

use crate::blame::Blame;
use language_base::{Refusal, Rule, Span};
use std::alloc::{AllocError, AllocFailed};

/// The first node that breaks a rule, unless out of memory.
#[derive(Drop)]
pub enum WordStop {
    /// By a rule that does not forbid words with two readings.
    Broken(Refusal),
    Ambiguous(Box<Blame>),
    Memory,
}

impl WordStop {
    /// The stop at a node at this place that breaks this rule.
    pub(crate) fn broken(rule: Rule, span: Span) -> WordStop
        ensures { result ≡ WordStop.Broken (record { rule = rule; span = span }) }
    {
        WordStop::Broken(Refusal { rule, span })
    }
}

impl From<AllocError> for WordStop {
    ghost use Rattle.std.specs.Prelude.{◌≡◌};
    ghost use Rattle.type_checker.specs.declared.word_stop.WordStop.TheVariants.{Memory};

    ghost from_gives = { λ _ stop. stop ≡ Memory };

    fn from(_error: AllocError) -> WordStop {
        WordStop::Memory
    }
}

impl<T: Drop> From<AllocFailed<T>> for WordStop {
    ghost use Rattle.std.specs.Prelude.{◌≡◌};
    ghost use Rattle.type_checker.specs.declared.word_stop.WordStop.TheVariants.{Memory};

    ghost from_gives = { λ _ stop. stop ≡ Memory };

    fn from(_failed: AllocFailed<T>) -> WordStop {
        WordStop::Memory
    }
}
