//! The answers for keys, and the tables that they make.
ghost use Rattle.std.specs.Prelude.{◌≡◌, ◌≤◌, ◌<◌, ℕ, length, slice_index, IfOk};
ghost use Rattle.std.specs.List.{IsDistinct};
ghost use Rattle.std.specs.Str.{bytes_eq};
ghost use Rattle.slow_eval.specs.Tabled.{AreTables, entries_at, HaveAnswersAt, keys_in, scalar_of};

use std::alloc::{AllocError, Global};
use value_ops::{Bytes, Scalar, Table, Value};

/// A key, and an answer for it on each front of a word.
#[derive(Drop)]
pub(crate) struct Keyed {
    pub(crate) key: Bytes,
    pub(crate) answers: Vec<Option<Value>>,
}

/// On each front that is in the rate, the table of the keys that have appeared. On any other there
/// is no answer.
pub(crate) fn tables(
    alloc: Global,
    in_rate: &[bool],
    counts: &[usize],
    all: &[Keyed],
) -> Result<Vec<Option<Value>>, AllocError>
    requires distinct { IsDistinct bytes_eq (keys_in all.now) }
    requires counts { length counts.now ≡ length in_rate.now }
    requires within { (place : ℕ) → place < length in_rate.now
        → slice_index counts.now place ≤ length all.now }
    requires answers { (place : ℕ) → place < length in_rate.now → HaveAnswersAt place all.now }
    ensures { IfOk result (λ row. AreTables in_rate.now counts.now all.now row.items) }
{
    let mut row = Vec::new(alloc);
    'places: for place in 0..in_rate.len() {
        row.push(if in_rate[place] {
            Some(Value::Table(table(alloc, &all[..counts[place]], place)?))
        } else {
            None
        })?;
    }
    Ok(row)
}

/// The keys that have a scalar at the place, each with its scalar.
fn table(alloc: Global, all: &[Keyed], place: usize) -> Result<Table, AllocError>
    requires distinct { IsDistinct bytes_eq (keys_in all.now) }
    requires answers { HaveAnswersAt place all.now }
    ensures { IfOk result (λ table. table ≡ entries_at place all.now) }
{
    let mut table = Table::new(alloc);
    'keys: for one in all {
        if let Some(scalar) = scalar_of(&one.answers[place]) {
            table.push(one.key.as_slice(), scalar)?;
        }
    }
    Ok(table)
}

fn scalar_of(answer: &Option<Value>) -> Option<Scalar>
    ensures { result ≡ scalar_of answer.now }
{
    match answer {
        Some(Value::Scalar(scalar)) => Some(*scalar),
        Some(Value::Rec(_) | Value::Table(_)) => None,
        None => None,
    }
}
