//! The classes of a column: no predicate distinguishes the fields of one class. The numbers are
//! parted into intervals, and each text that a test names is a class of its own:
//!
//!     numbers    from -2^63 on | from starts[0] on | from starts[1] on | ...
//!     class      0             | 1                 | 2                 | ...
ghost use Rattle.std.specs.Prelude.{◌≡◌, ◌<◌, ◌≤◌, length, map, option_map, slice_index_or, true};
ghost use Rattle.std.specs.Prelude.{Some, IfOk};
ghost use Rattle.predicates.specs.Fits.{is_text};
ghost use Rattle.predicates.specs.Plain.{plain_of};
ghost use Rattle.predicate_cells.specs.Ranks.{ranks_of, count_in, class_in, field_in, number_rank};
ghost use Rattle.predicate_cells.specs.Ranks.{text_rank, number_of_class, scalar_of_class};
ghost use Rattle.predicate_cells.specs.Ranks.{other_text};
ghost use Rattle.predicates.specs.Truth.{number_of, text_of};

use crate::starts::starts_of;
use crate::texts::{copied, texts_of};
use item_schema::Kind;
use predicates::Pred;
use std::alloc::{AllocError, Global};
use std::marker::Model;
use value_ops::{Bytes, Field, Scalar, Table, Value};

/// The kind of a column, the numbers at which its classes begin except for the first class, and the
/// texts that have classes of their own; seen as these.
#[derive(Drop)]
pub(crate) struct Classes {
    kind: Kind,
    starts: Vec<i64>,
    texts: Vec<Bytes>,
    // A text of the class of all other texts.
    other: Bytes,
}

impl Model for Classes {
    ghost use Rattle.std.specs.Prelude.{◌≡◌, [], if◌then◌else◌};
    ghost use Rattle.std.specs.Cmp.Lexicographic.{slice_cmp};
    ghost use Rattle.std.specs.List.Sorted.{IsStrictlySortedBy};
    ghost use Rattle.std.specs.Ordering.{int_cmp, nat_cmp};
    ghost use Rattle.predicates.specs.Fits.{is_text};
    ghost use Rattle.predicate_cells.specs.Ranks.{Ranks, other_text};

    ghost Value = { Ranks };

    ghost view = { λ c. record { kind = c.kind; starts = c.starts.items; texts = c.texts.items } };

    ghost invariant = { λ c. IsStrictlySortedBy int_cmp c.starts.items
        × IsStrictlySortedBy (slice_cmp nat_cmp) c.texts.items
        × (c.other ≡ (if is_text c.kind then other_text c.texts.items else [])) };
}

impl Classes {
    /// The classes of a column under the predicates that test it.
    pub(crate) fn new(
        alloc: Global,
        preds: &[Pred],
        column: u32,
        kind: Kind,
    ) -> Result<Classes, AllocError>
        ensures { IfOk result (λ classes. classes ≡ ranks_of kind column (map plain_of preds.now)) }
    {
        match kind {
            Kind::Int | Kind::Fixed(_) | Kind::Number => Ok(Classes {
                kind,
                starts: starts_of(alloc, preds, column)?,
                texts: Vec::new(alloc),
                other: Bytes::from_vec(Vec::new(alloc)),
            }),
            Kind::Text => {
                let texts = texts_of(alloc, preds, column)?;
                let other = other_text(alloc, &texts)?;
                Ok(Classes {
                    kind,
                    starts: Vec::new(alloc),
                    texts,
                    other,
                })
            }
            Kind::Table => Ok(Classes {
                kind,
                starts: Vec::new(alloc),
                texts: Vec::new(alloc),
                other: Bytes::from_vec(Vec::new(alloc)),
            }),
        }
    }

    pub(crate) fn try_copy(&self, alloc: Global) -> Result<Classes, AllocError>
        ensures { IfOk result (λ copy. copy ≡ self.now) }
    {
        let starts = Vec::from_slice(alloc, &self.starts)?;
        let other = self.other.try_copy(alloc)?;
        Ok(Classes {
            kind: self.kind,
            starts,
            texts: copied(alloc, &self.texts)?,
            other,
        })
    }

    pub(crate) fn count(&self) -> usize
        ensures { result ≡ count_in self.now }
    {
        match self.kind {
            Kind::Int | Kind::Fixed(_) => self.starts.len() + 1,
            Kind::Text => self.texts.len() + 1,
            // Besides the numbers, `overflow` and `divzero` have a class each.
            Kind::Number => self.starts.len() + 3,
            Kind::Table => 1,
        }
    }

    /// The class of a field. If it is not a field of the column, the first class is given.
    pub(crate) fn class_of(&self, field: &Field) -> usize
        ensures { result ≡ class_in self.now field.now }
    {
        match (self.kind, field) {
            (Kind::Int | Kind::Fixed(_), Field::Int(number)) => self.number_class(*number),
            (Kind::Text, Field::Text(text)) => self.text_class(text.as_slice()),
            (Kind::Number, Field::Val(Value::Scalar(scalar))) => match scalar {
                Scalar::Number(number) => self.number_class(*number),
                Scalar::Overflow => self.starts.len() + 1,
                Scalar::DivZero => self.starts.len() + 2,
            },
            _ => 0,
        }
    }

    /// Some field of the class.
    pub(crate) fn field(&self, alloc: Global, class: usize) -> Result<Field, AllocError>
        requires { class < count_in self.now }
        ensures { IfOk result (λ field. field ≡ field_in self.now class) }
    {
        match self.kind {
            Kind::Int | Kind::Fixed(_) => Ok(Field::Int(self.start(class))),
            Kind::Text => Ok(Field::Text(self.text_at(class).try_copy(alloc)?)),
            Kind::Number => Ok(Field::Val(Value::Scalar(self.scalar(class)))),
            Kind::Table => Ok(Field::Val(Value::Table(Table::new(alloc)))),
        }
    }

    /// The number that this field is, if it is one.
    pub(crate) fn number(&self, class: usize) -> Option<i64>
        requires { class < count_in self.now }
        ensures { result ≡ number_of (Some (field_in self.now class)) }
    {
        match self.kind {
            Kind::Int | Kind::Fixed(_) => Some(self.start(class)),
            Kind::Number => match self.scalar(class) {
                Scalar::Number(number) => Some(number),
                _ => None,
            },
            _ => None,
        }
    }

    /// The text that this field is, if it is one.
    pub(crate) fn text(&self, class: usize) -> Option<&[u8]>
        requires { class < count_in self.now }
        ensures { option_map (λ text. text.now) result ≡ text_of (Some (field_in self.now class)) }
    {
        match self.kind {
            Kind::Text => Some(self.text_at(class).as_slice()),
            _ => None,
        }
    }

    fn start(&self, class: usize) -> i64
        requires { class ≤ length self.now.starts }
        ensures { result ≡ number_of_class self.now.starts class }
    {
        if class == 0 {
            i64::MIN
        } else {
            self.starts[class - 1]
        }
    }

    fn scalar(&self, class: usize) -> Scalar
        ensures { result ≡ scalar_of_class self.now.starts class }
    {
        if class <= self.starts.len() {
            Scalar::Number(self.start(class))
        } else if class == self.starts.len() + 1 {
            Scalar::Overflow
        } else {
            Scalar::DivZero
        }
    }

    fn text_at(&self, class: usize) -> &Bytes
        requires { is_text self.now.kind ≡ true }
        ensures { result.now ≡ slice_index_or self.now.texts class (other_text self.now.texts) }
    {
        self.texts.get(class).unwrap_or(&self.other)
    }

    fn number_class(&self, number: i64) -> usize
        ensures { result ≡ number_rank self.now.starts number }
    {
        self.starts.partition_point(|start| *start <= number)
    }

    fn text_class(&self, text: &[u8]) -> usize
        ensures { result ≡ text_rank self.now.texts text.now }
    {
        match self
            .texts
            .binary_search_by(|named| named.as_slice().cmp(text))
        {
            Ok(place) => place,
            Err(_) => self.texts.len(),
        }
    }
}

// The greatest text with one more byte is greater than all texts, and so equal to none of them.
fn other_text(alloc: Global, texts: &[Bytes]) -> Result<Bytes, AllocError>
    ensures { IfOk result (λ text. text ≡ other_text texts.now) }
{
    let mut text = match texts.last() {
        Some(last) => Vec::from_slice(alloc, last.as_slice())?,
        None => Vec::new(alloc),
    };
    text.push(b'_')?;
    Ok(Bytes::from_vec(text))
}
