//! Where the classes of a column's numbers begin.
ghost use Rattle.std.specs.Prelude.{◌≡◌, [], ◌∷◌, ◌++◌, map, filter, pos, ◌+ℤ◌, OnOk, IfOk};
ghost use Rattle.std.specs.List.{flat_map};
ghost use Rattle.std.specs.Ordering.{int_cmp};
ghost use Rattle.predicate_cells.specs.Classes.{beginnings, begins_class, next};
ghost use Rattle.predicates.specs.Plain.{plain_of};
ghost use Rattle.predicate_cells.specs.Rising.{rising};

use predicates::Pred;
use std::alloc::{AllocError, Global};

/// Where all classes but the first begin, from the least number to the greatest.
pub(crate) fn starts_of(alloc: Global, preds: &[Pred], column: u32) -> Result<Vec<i64>, AllocError>
    ensures { IfOk result (λ starts. starts.items
        ≡ rising int_cmp
        (filter begins_class (flat_map (beginnings column) (map plain_of preds.now)))) }
{
    let mut starts = Vec::new(alloc);
    for pred in preds {
        push_starts(pred, column, &mut starts)?;
    }
    starts.sort_unstable();
    starts.dedup();
    Ok(starts)
}

#[cycle(push)]
fn push_starts(pred: &Pred, column: u32, starts: &mut Vec<i64>) -> Result<(), AllocError>
    ensures { OnOk result (starts.new.items
        ≡ starts.old.items ++ filter begins_class (beginnings column (plain_of pred.now))) }
{
    match pred {
        Pred::Eq(tested, n) | Pred::Ne(tested, n) if *tested == column => {
            push_interval(*n, *n, starts)
        }
        Pred::Lt(tested, n) | Pred::Ge(tested, n) if *tested == column => push_start(*n, starts),
        Pred::Le(tested, n) | Pred::Gt(tested, n) if *tested == column => push_next(*n, starts),
        Pred::Between(tested, low, high) if *tested == column => {
            push_interval(*low, *high, starts)
        }
        Pred::And(left, right) | Pred::Or(left, right) => {
            push_starts_of_both(left, right, column, starts)
        }
        Pred::Not(inner) => push_starts(inner, column, starts),
        _ => Ok(()),
    }
}

#[cycle(push)]
fn push_starts_of_both(
    left: &Pred,
    right: &Pred,
    column: u32,
    starts: &mut Vec<i64>,
) -> Result<(), AllocError>
    ensures { OnOk result (starts.new.items ≡ starts.old.items ++ filter begins_class
        (beginnings column (plain_of left.now) ++ beginnings column (plain_of right.now))) }
{
    push_starts(left, column, starts)?;
    push_starts(right, column, starts)
}

// A class begins at the first number of the interval, and another after its last number.
fn push_interval(first: i64, last: i64, starts: &mut Vec<i64>) -> Result<(), AllocError>
    ensures { OnOk result (starts.new.items
        ≡ starts.old.items ++ filter begins_class (first ∷ next last ∷ [])) }
{
    push_start(first, starts)?;
    push_next(last, starts)
}

// The least number of all begins no class, since the first class begins there anyway.
fn push_start(number: i64, starts: &mut Vec<i64>) -> Result<(), AllocError>
    ensures { OnOk result (starts.new.items
        ≡ starts.old.items ++ filter begins_class (number ∷ [])) }
{
    if number > i64::MIN {
        starts.push(number)?;
    }
    Ok(())
}

// After the greatest number there is none at which a class could begin.
fn push_next(number: i64, starts: &mut Vec<i64>) -> Result<(), AllocError>
    ensures { OnOk result (starts.new.items
        ≡ starts.old.items ++ filter begins_class (next number ∷ [])) }
{
    if let Some(next) = number.checked_add(1) {
        starts.push(next)?;
    }
    Ok(())
}
