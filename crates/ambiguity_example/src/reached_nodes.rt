//! The nodes that a search has seen, level by level.
ghost use Rattle.std.specs.Prelude.{◌≡◌, ◌+◌, IfOk, OnOk};
ghost use Rattle.ambiguity_check.specs.Marked.{IsMarked, IsInRow};
ghost use Rattle.ambiguity_example.specs.Known.{Adds};

use ambiguity_check::{Marks, Node, Phase};
use rate_expr::masks::{end_of, has};
use std::alloc::{AllocError, Global};

/// A node, and how many items the shortest walks to it have.
#[derive(Clone, Copy)]
pub(crate) struct Reached {
    pub(crate) node: Node,
    pub(crate) items: u32,
}

/// Appends the nodes of a level. The result is the number of items of the walks to the next level.
pub(crate) fn add_level(
    reached: &mut Vec<Reached>,
    level: &Marks,
    items: u32,
) -> Result<u32, AllocError>
    ensures adds { OnOk result
        (Adds (IsMarked level.now) items reached.old.items reached.new.items) }
    ensures next { IfOk result (λ next. next ≡ items + 1) }
{
    add_phase(reached, level, Phase::Together, items)?;
    add_phase(reached, level, Phase::Parted, items)?;
    add_phase(reached, level, Phase::Rejoined, items)?;
    match items.checked_add(1) {
        Some(next) => Ok(next),
        None => Err(AllocError),
    }
}

fn add_phase(
    reached: &mut Vec<Reached>,
    level: &Marks,
    phase: Phase,
    items: u32,
) -> Result<(), AllocError>
    ensures { OnOk result (Adds (λ node. (node.phase ≡ phase) × IsMarked level.now node) items
        reached.old.items reached.new.items) }
{
    'lefts: for left in 0..level.end() {
        add_row(reached, phase, left, level.row(phase, left), items)?;
    }
    Ok(())
}

fn add_row(
    reached: &mut Vec<Reached>,
    phase: Phase,
    left: u32,
    rights: u128,
    items: u32,
) -> Result<(), AllocError>
    ensures { OnOk result (Adds (IsInRow phase left rights) items
        reached.old.items reached.new.items) }
{
    'rights: for right in 0..end_of(rights) {
        if has(rights, right) {
            let node = Node { phase, left, right };
            reached.push(Reached { node, items })?;
        }
    }
    Ok(())
}
