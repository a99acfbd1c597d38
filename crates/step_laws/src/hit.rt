//! Where a piece of the word has a value.
ghost use Rattle.std.specs.Prelude.{◌≡◌, Some};
ghost use Rattle.std.specs.Option.{option_map, option_or};
ghost use Rattle.value_ops.specs.declared.scalar.Scalar.TheVariants as scalar;
ghost use Rattle.value_ops.specs.Types.{IsTable};
ghost use Rattle.value_ops.specs.declared.value.Value.TheVariants as value;
ghost use Rattle.step_laws.specs.declared.hit.Hit.{Hit};

use value_ops::{Scalar, Table, Value};

/// The piece from a start to the end of the word has this value.
pub struct Hit {
    pub start: u64,
    pub value: Value,
}

// Written out, so that a hit is dropped by one call.
impl Drop for Hit {
    #[inline(always)]
    fn drop(self) {
        let Hit {
            start: _,
            value: _value,
        } = self;
    }
}

impl Hit {
    #[inline(always)]
    pub fn into_parts(self) -> (u64, Value)
        ensures start { result.0 ≡ self.start }
        ensures value { result.1 ≡ self.value }
    {
        let Hit { start, value } = self;
        (start, value)
    }

    pub fn of_number(start: u64, number: i64) -> Hit
        ensures { result
            ≡ record { start = start; value = value.Scalar (scalar.Number number) } }
    {
        let value = Value::Scalar(Scalar::Number(number));
        Hit { start, value }
    }

    pub fn of_table(start: u64, table: Table) -> Hit
        ensures is { result ≡ record { start = start; value = value.Table table } }
        ensures typed { IsTable table }
    {
        let value = Value::Table(table);
        // By its type its entries are those of a table.
        let _type = value.ty();
        Hit { start, value }
    }
}

/// Sets the hit to this number at the start.
#[inline(always)]
pub fn put_number(hit: &mut Option<Hit>, start: u64, number: i64)
    ensures { hit.new
        ≡ Some (record { start = start; value = value.Scalar (scalar.Number number) }) }
{
    *hit = Some(Hit::of_number(start, number));
}

/// Sets the hit to the other one if there is none.
#[inline(always)]
pub fn put_if_none(hit: &mut Option<Hit>, other: Option<Hit>)
    ensures { hit.new ≡ option_or hit.old other }
{
    if hit.is_none() {
        *hit = other;
    }
}

/// Puts the value of a hit in the place of an answer.
#[inline(always)]
pub fn put_answer(answer: &mut Option<Value>, hit: Option<Hit>)
    ensures { answer.new ≡ option_map (λ (found : Hit). found.value) hit }
{
    match hit {
        Some(hit) => {
            *answer = Some(hit.into_parts().1);
        }
        None => {
            *answer = None;
        }
    }
}

/// The value of a hit.
pub fn value_of(hit: Option<Hit>) -> Option<Value>
    ensures { result ≡ option_map (λ (found : Hit). found.value) hit }
{
    match hit {
        Some(hit) => Some(hit.into_parts().1),
        None => None,
    }
}
