//! Alternatives that are grouped from the right, and compositions that are grouped from the left.
ghost use Rattle.std.specs.Prelude.{◌≡◌};
ghost use Rattle.query_model.specs.Queries.{choice, compose, plain_of};
ghost use Rattle.query_rewrite.specs.Steps.{chosen, fed};

use crate::turning::can_turn;
use query_model::{Query, Shape};
use std::mem::swap;

/// Makes the operands of a choice those of one that is grouped from the right.
pub(crate) fn group_from_right(left: &mut Box<Query>, right: &mut Box<Query>)
    ensures { choice (plain_of left.new.value.shape) (plain_of right.new.value.shape)
        ≡ chosen (plain_of left.old.value.shape) (plain_of right.old.value.shape) }
{
    let Shape::Or(first, second) = &mut left.shape else {
        return;
    };
    group_from_right(second, right);
    // The left node gives up its first operand, and becomes the right one.
    swap(first, second);
    swap(second, right);
    swap(left, right);
}

/// Makes the operands of a composition those of one that is grouped from the left, as far as
/// that may be.
pub(crate) fn group_from_left(left: &mut Box<Query>, right: &mut Box<Query>)
    ensures { compose (plain_of left.new.value.shape) (plain_of right.new.value.shape)
        ≡ fed (plain_of left.old.value.shape) (plain_of right.old.value.shape) }
{
    let Shape::Compose(middle, last) = &mut right.shape else {
        return;
    };
    if !can_turn(middle, last) {
        return;
    }
    group_from_left(left, middle);
    // The right node gives up its last operand, and becomes the left one.
    swap(middle, last);
    swap(left, middle);
    swap(left, right);
}
