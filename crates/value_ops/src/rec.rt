//! A record of numbers.
ghost use Rattle.std.specs.Prelude.{◌≡◌, ◌<◌, Some, length, slice_get};
ghost use Rattle.few_parts.specs.Sizes.{IsRecordSize};

use crate::{Scalar, ValueType};
use std::marker::Model;

/// The most numbers that a record has.
pub const MAX_PARTS: usize = 8;

/// What stands at a place of a record.
#[derive(Clone, Copy, Debug, PartialEq, Eq)]
enum Part {
    Number,
    Overflow,
    DivZero,
    /// The record has fewer parts.
    Absent,
}

impl Part {
    ghost use Rattle.value_ops.specs.Records.{part_of, scalar_with};

    fn of(scalar: Scalar) -> Part
        ensures { result ≡ part_of scalar }
    {
        match scalar {
            Scalar::Number(_) => Part::Number,
            Scalar::Overflow => Part::Overflow,
            Scalar::DivZero => Part::DivZero,
        }
    }

    // The scalar that is so and has this number.
    fn scalar(self, number: i64) -> Option<Scalar>
        ensures { result ≡ scalar_with self number }
    {
        match self {
            Part::Number => Some(Scalar::Number(number)),
            Part::Overflow => Some(Scalar::Overflow),
            Part::DivZero => Some(Scalar::DivZero),
            Part::Absent => None,
        }
    }
}

/// Two to eight scalars, seen as their list. A value is moved often, so they are kept in 72 bytes,
/// what each is apart from its number. As a slice, which could be lent, eight scalars take 128.
#[derive(Clone, Copy, Debug, PartialEq, Eq)]
pub struct Rec {
    // Zero where the part is no number.
    numbers: [i64; MAX_PARTS],
    parts: [Part; MAX_PARTS],
}

const _: () = prove!(size_of::<Rec>() == 72);

impl Model for Rec {
    ghost use Rattle.std.specs.Prelude.{List};
    ghost use Rattle.value_ops.specs.declared.scalar.Scalar.{Scalar};

    ghost Value = { List Scalar };

    ghost use Rattle.value_ops.specs.Records.{IsKept, numbers_of, parts_of, scalars_of};

    ghost view = { λ r. scalars_of r.parts r.numbers };

    ghost invariant = { λ r. IsKept r.parts r.numbers };

    ghost inverse = { λ scalars. record {
      numbers = numbers_of scalars;
      parts = parts_of scalars;
    } };

    ghost inverse_ok = { λ r kept i. record {
      numbers = kept.same_numbers i;
      parts = kept.same_parts i;
    } };
}

impl Rec {
    ghost use Rattle.value_ops.specs.Records.{number_of};
    ghost use Rattle.value_ops.specs.Types.{IsRecord};

    // The number, and zero where there is none.
    fn number_of(scalar: Scalar) -> i64
        ensures { result ≡ number_of scalar }
    {
        match scalar {
            Scalar::Number(number) => number,
            Scalar::Overflow | Scalar::DivZero => 0,
        }
    }

    pub fn new(scalars: &[Scalar]) -> Rec
        requires { IsRecordSize (length scalars.now) }
        ensures { result ≡ scalars.now }
    {
        let mut numbers = [0; MAX_PARTS];
        let mut parts = [Part::Absent; MAX_PARTS];
        'scalars: for (place, scalar) in scalars.iter().enumerate() {
            let scalar = scalar.known();
            numbers[place] = Rec::number_of(scalar);
            parts[place] = Part::of(scalar);
        }
        Rec { numbers, parts }
    }

    /// How many parts there are.
    pub fn len(&self) -> usize
        ensures len { result ≡ length self.now }
        ensures size { IsRecordSize (length self.now) }
    {
        'places: for (place, part) in self.parts.iter().enumerate() {
            if let Part::Absent = part {
                return place;
            }
        }
        MAX_PARTS
    }

    /// The part at a place, counted from 0.
    pub fn part(&self, place: usize) -> Scalar
        requires { place < length self.now }
        ensures { slice_get self.now place ≡ Some result }
    {
        match self.parts[place].scalar(self.numbers[place]) {
            Some(scalar) => scalar,
            None => unreachable!(),
        }
    }

    /// The type of all records of this many parts.
    pub(crate) fn ty(&self) -> ValueType
        ensures ty { result ≡ ValueType.Rec (length self.now) }
        ensures parts { IsRecord (length self.now) self.now }
    {
        // Reading a field shows that the parts are scalars of 64 bits.
        let _parts = &self.parts;
        ValueType::Rec(self.len() as u32)
    }
}
