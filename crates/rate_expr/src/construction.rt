//! The sets of a rate, from those of its parts.
ghost use Rattle.std.specs.Prelude.{◌≡◌, ◌+◌, ◌<◌, ◌≤◌, [], ◌∷◌, ◌++◌, length, IfOk, OnOk};
ghost use Rattle.language_base.specs.Limits.{max_positions};
ghost use Rattle.predicates.specs.Plain as predicates;
ghost use Rattle.rate_expr.specs.Parts.{part_of, follow_of, of_one};
ghost use Rattle.rate_expr.specs.Plain.{plain_of};
ghost use Rattle.rate_expr.specs.Rates.{preds_of, sequence, size_of};
ghost use Rattle.rate_expr.specs.Shared.{listed, AreShared};

use crate::links::link;
use crate::part::Part;
use crate::rate::Rate;
use crate::shared_preds::SharedPreds;
use predicates::Pred;
use std::alloc::AllocError;

/// Appends the positions of a rate to those of others, and says where its words begin and end.
#[cycle(add)]
pub(crate) fn add(
    rate: &Rate,
    follow: &mut Vec<u128>,
    preds: &mut SharedPreds,
) -> Result<Part, AllocError>
    requires shared { AreShared preds.old }
    requires few { length follow.old.items + size_of (plain_of rate.now) ≤ max_positions }
    ensures part { IfOk result
        (λ part. part ≡ part_of (plain_of rate.now) (length follow.old.items)) }
    ensures follow { OnOk result
        (follow.new.items ≡ follow_of (plain_of rate.now) follow.old.items) }
    ensures count { OnOk result
        (length follow.new.items ≡ length follow.old.items + size_of (plain_of rate.now)) }
    ensures shared { OnOk result (AreShared preds.new) }
    ensures preds { OnOk result
        (listed preds.new ≡ listed preds.old ++ preds_of (plain_of rate.now)) }
{
    match rate {
        Rate::Empty => Ok(Part::empty()),
        Rate::One(pred) => add_item(pred, follow, preds),
        Rate::Seq(first, second) => add_sequence(first, second, follow, preds),
        Rate::Alt(first, second) => {
            let one = add(first, follow, preds)?;
            let other = add(second, follow, preds)?;
            Ok(one.or(other))
        }
        Rate::Star(inner) => {
            let part = add(inner, follow, preds)?;
            link(follow, part.last, part.first);
            Ok(part.star())
        }
    }
}

// Appends one position.
fn add_item(
    pred: &Pred,
    follow: &mut Vec<u128>,
    preds: &mut SharedPreds,
) -> Result<Part, AllocError>
    requires shared { AreShared preds.old }
    requires few { length follow.old.items < max_positions }
    ensures part { IfOk result (λ part. part ≡ of_one (length follow.old.items)) }
    ensures follow { OnOk result (follow.new.items ≡ follow.old.items ++ 0 ∷ []) }
    ensures shared { OnOk result (AreShared preds.new) }
    ensures preds { OnOk result
        (listed preds.new ≡ listed preds.old ++ predicates.plain_of pred.now ∷ []) }
{
    let position = follow.len();
    follow.push(0)?;
    preds.add(pred)?;
    Ok(Part::one(position as u32))
}

// Appends the positions of two rates, and links the ends of the first to the beginnings of the
// second.
#[cycle(add)]
fn add_sequence(
    first: &Rate,
    second: &Rate,
    follow: &mut Vec<u128>,
    preds: &mut SharedPreds,
) -> Result<Part, AllocError>
    requires shared { AreShared preds.old }
    requires few { length follow.old.items
        + size_of (sequence (plain_of first.now) (plain_of second.now)) ≤ max_positions }
    ensures part { IfOk result (λ part. part
        ≡ part_of (sequence (plain_of first.now) (plain_of second.now)) (length follow.old.items)) }
    ensures follow { OnOk result (follow.new.items
        ≡ follow_of (sequence (plain_of first.now) (plain_of second.now)) follow.old.items) }
    ensures count { OnOk result (length follow.new.items ≡ length follow.old.items
        + size_of (sequence (plain_of first.now) (plain_of second.now))) }
    ensures shared { OnOk result (AreShared preds.new) }
    ensures preds { OnOk result (listed preds.new ≡ listed preds.old
        ++ preds_of (sequence (plain_of first.now) (plain_of second.now))) }
{
    let before = add(first, follow, preds)?;
    let after = add(second, follow, preds)?;
    link(follow, before.last, after.first);
    Ok(before.then(after))
}
