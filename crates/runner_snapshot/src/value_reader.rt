//! Reads values and answers.
ghost use Rattle.runner_snapshot.specs.Reading.{answer_at, answer_of, Gives, parts_at, repeat_at};
ghost use Rattle.runner_snapshot.specs.Reading.{scalar_at, scalar_of, value_of, value_read_at};

use crate::reader::Reader;
use crate::tags::ValueTag;
use crate::{Flaw, SnapStop};
use std::alloc::Global;
use value_ops::{Rec, Scalar, Value};

impl Reader<'_> {
    #[tactic(auto, unfolding(crate::specs::Reading::scalar_at))]
    pub(crate) fn scalar(&mut self) -> Result<Scalar, SnapStop>
        ensures { Gives (λ scalar. scalar) result self.new.rest.now
            (scalar_at self.old.rest.now) }
    {
        let byte = self.byte()?;
        self.scalar_after(ValueTag::of(byte))
    }

    #[tactic(auto, unfolding(crate::specs::Reading::scalar_of))]
    fn scalar_after(&mut self, tag: Option<ValueTag>) -> Result<Scalar, SnapStop>
        ensures { Gives (λ scalar. scalar) result self.new.rest.now
            (scalar_of tag self.old.rest.now) }
    {
        match tag {
            Some(ValueTag::Number) => Ok(Scalar::Number(self.signed()?)),
            Some(ValueTag::Overflow) => Ok(Scalar::Overflow),
            Some(ValueTag::DivZero) => Ok(Scalar::DivZero),
            _ => Err(SnapStop::Bad(Flaw::Form)),
        }
    }

    fn scalars(&mut self, alloc: Global, count: u8) -> Result<Vec<Scalar>, SnapStop>
        ensures { Gives (λ scalars. scalars.items) result self.new.rest.now
            (repeat_at scalar_at count self.old.rest.now) }
    {
        let mut scalars = Vec::new(alloc);
        'scalars: for _ in 0..count {
            let scalar = self.scalar()?;
            scalars.push(scalar)?;
        }
        Ok(scalars)
    }

    #[tactic(auto, unfolding(crate::specs::Reading::parts_at))]
    fn parts(&mut self, alloc: Global) -> Result<Rec, SnapStop>
        ensures { Gives (λ parts. parts) result self.new.rest.now (parts_at self.old.rest.now) }
    {
        let count = self.byte()?;
        if count < 2 || count > 8 {
            return Err(SnapStop::Bad(Flaw::Form));
        }
        let scalars = self.scalars(alloc, count)?;
        Ok(Rec::new(&scalars))
    }

    #[tactic(auto, unfolding(crate::specs::Reading::value_read_at))]
    pub(crate) fn value(&mut self, alloc: Global) -> Result<Value, SnapStop>
        ensures { Gives (λ value. value) result self.new.rest.now
            (value_read_at self.old.rest.now) }
    {
        let byte = self.byte()?;
        self.value_after(alloc, ValueTag::of(byte))
    }

    #[tactic(auto, unfolding(crate::specs::Reading::value_of))]
    fn value_after(&mut self, alloc: Global, tag: Option<ValueTag>) -> Result<Value, SnapStop>
        ensures { Gives (λ value. value) result self.new.rest.now
            (value_of tag self.old.rest.now) }
    {
        match tag {
            Some(ValueTag::Table) => Ok(Value::Table(self.table(alloc)?)),
            Some(ValueTag::Rec) => Ok(Value::Rec(self.parts(alloc)?)),
            other => Ok(Value::Scalar(self.scalar_after(other)?)),
        }
    }

    #[tactic(auto, unfolding(crate::specs::Reading::answer_at, crate::specs::Reading::answer_of))]
    pub(crate) fn answer(&mut self, alloc: Global) -> Result<Option<Value>, SnapStop>
        ensures { Gives (λ answer. answer) result self.new.rest.now (answer_at self.old.rest.now) }
    {
        let byte = self.byte()?;
        match ValueTag::of(byte) {
            Some(ValueTag::Absent) => Ok(None),
            other => Ok(Some(self.value_after(alloc, other)?)),
        }
    }
}
