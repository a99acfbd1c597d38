//! In which units the answers of a query are.
ghost use Rattle.std.specs.Prelude.{◌≡◌, if◌then◌else◌};
ghost use Rattle.std.specs.List.{list_all};
ghost use Rattle.answer_units.specs.Units.{are_same, common_units, units_of};

use crate::scale::Scale;

/// How many digits after the point the numbers of an answer have, which are counted in their
/// smallest unit.
#[derive(Clone, Copy, Debug, PartialEq, Eq)]
pub enum Units {
    /// All of them have this many, from 1 to 9.
    Digits(u8),
    /// None has any.
    Whole,
    /// They do not have the same, or it cannot be told.
    Mixed,
}

impl Units {
    fn of(scale: Scale) -> Units
        ensures { result ≡ units_of scale }
    {
        match scale {
            Scale::Any | Scale::Round | Scale::Digits(0) => Units::Whole,
            Scale::Digits(digits) => Units::Digits(digits),
            Scale::Unknown => Units::Mixed,
        }
    }

    fn is(self, other: Units) -> bool
        ensures { result ≡ are_same self other }
    {
        match (self, other) {
            (Units::Digits(first), Units::Digits(second)) => first == second,
            (Units::Whole, Units::Whole) | (Units::Mixed, Units::Mixed) => true,
            _ => false,
        }
    }

    // Whether all numbers of these scales are in the units.
    fn are_those_of(self, scales: &[Scale]) -> bool
        ensures { result ≡ list_all (λ scale. are_same self (units_of scale)) scales.now }
    {
        scales.iter().all(|scale| self.is(Units::of(*scale)))
    }

    // The same, if all numbers of these scales are in these units.
    fn if_those_of(self, scales: &[Scale]) -> Units
        ensures { result ≡ if list_all (λ scale. are_same self (units_of scale)) scales.now
            then self else Units.Mixed }
    {
        if self.are_those_of(scales) {
            self
        } else {
            Units::Mixed
        }
    }

    /// Those of all numbers of a value, where they are the same.
    pub(crate) fn common(scales: &[Scale]) -> Units
        ensures { result ≡ common_units scales.now }
    {
        Units::of(Scale::at(scales, 0)).if_those_of(scales)
    }
}
