//! Copies of predicates.
ghost use Rattle.std.specs.Prelude.{◌≡◌, IfOk};
ghost use Rattle.predicates.specs.Plain.{plain_of};
ghost use Rattle.predicates.specs.Predicates.{conjunction, disjunction, eq_text, ne_text};
ghost use Rattle.predicates.specs.Predicates.{negation};

use crate::Pred;
use std::alloc::{AllocError, Global};
use value_ops::Bytes;

impl Pred {
    #[cycle(copy)]
    pub fn try_copy(&self, alloc: Global) -> Result<Pred, AllocError>
        ensures { IfOk result (λ copy. plain_of copy ≡ plain_of self.now) }
    {
        match self {
            Pred::Any => Ok(Pred::Any),
            Pred::Eq(column, number) => Ok(Pred::Eq(*column, *number)),
            Pred::Ne(column, number) => Ok(Pred::Ne(*column, *number)),
            Pred::Lt(column, number) => Ok(Pred::Lt(*column, *number)),
            Pred::Le(column, number) => Ok(Pred::Le(*column, *number)),
            Pred::Gt(column, number) => Ok(Pred::Gt(*column, *number)),
            Pred::Ge(column, number) => Ok(Pred::Ge(*column, *number)),
            Pred::Between(column, low, high) => Ok(Pred::Between(*column, *low, *high)),
            Pred::EqText(column, text) => copy_of_eq_text(alloc, *column, text),
            Pred::NeText(column, text) => copy_of_ne_text(alloc, *column, text),
            Pred::IsNum(column) => Ok(Pred::IsNum(*column)),
            Pred::And(left, right) => copy_of_and(alloc, left, right),
            Pred::Or(left, right) => copy_of_or(alloc, left, right),
            Pred::Not(inner) => copy_of_not(alloc, inner),
        }
    }

    #[cycle(copy)]
    fn boxed_copy(&self, alloc: Global) -> Result<Box<Pred>, AllocError>
        ensures { IfOk result (λ copy. plain_of copy.value ≡ plain_of self.now) }
    {
        Ok(Box::new(alloc, self.try_copy(alloc)?)?)
    }
}

fn copy_of_eq_text(alloc: Global, column: u32, text: &Bytes) -> Result<Pred, AllocError>
    ensures { IfOk result (λ copy. plain_of copy ≡ eq_text column text.now) }
{
    Ok(Pred::EqText(column, text.try_copy(alloc)?))
}

fn copy_of_ne_text(alloc: Global, column: u32, text: &Bytes) -> Result<Pred, AllocError>
    ensures { IfOk result (λ copy. plain_of copy ≡ ne_text column text.now) }
{
    Ok(Pred::NeText(column, text.try_copy(alloc)?))
}

#[cycle(copy)]
fn copy_of_and(alloc: Global, left: &Pred, right: &Pred) -> Result<Pred, AllocError>
    ensures { IfOk result (λ copy.
        plain_of copy ≡ conjunction (plain_of left.now) (plain_of right.now)) }
{
    let left = left.boxed_copy(alloc)?;
    Ok(Pred::And(left, right.boxed_copy(alloc)?))
}

#[cycle(copy)]
fn copy_of_or(alloc: Global, left: &Pred, right: &Pred) -> Result<Pred, AllocError>
    ensures { IfOk result (λ copy.
        plain_of copy ≡ disjunction (plain_of left.now) (plain_of right.now)) }
{
    let left = left.boxed_copy(alloc)?;
    Ok(Pred::Or(left, right.boxed_copy(alloc)?))
}

#[cycle(copy)]
fn copy_of_not(alloc: Global, inner: &Pred) -> Result<Pred, AllocError>
    ensures { IfOk result (λ copy. plain_of copy ≡ negation (plain_of inner.now)) }
{
    Ok(Pred::Not(inner.boxed_copy(alloc)?))
}
