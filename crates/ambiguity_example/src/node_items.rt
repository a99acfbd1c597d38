//! Items that meet both positions of nodes.
ghost use Rattle.std.specs.Prelude.{◌≡◌, IfOk};
ghost use Rattle.ambiguity_check.specs.Meetings.{MeetOne};
ghost use Rattle.ambiguity_check.specs.Splits.{left_of, right_of};
ghost use Rattle.ambiguity_example.specs.Met.{MeetsBoth, AllMeet, HasItem, HaveItems};

use ambiguity_check::{Node, Phase};
use item_schema::Item;
use plain_items::plain_item;
use rate_expr::masks::has;
use std::alloc::{AllocError, Global};
use symbolic_nfa::Nfa;

/// For each node, an item that meets its left position in the first automaton and its right one in
/// the second.
pub(crate) fn shared_items(
    alloc: Global,
    first: &Nfa,
    second: &Nfa,
    nodes: &[Node],
) -> Result<Vec<Item<'static>>, AllocError>
    requires cells { first.now.cells ≡ second.now.cells }
    requires meet { HaveItems first.now.cells.layout.columns
        (λ _. first.now.sets) (λ _. second.now.sets) nodes.now }
    ensures { IfOk result (λ items. AllMeet first.now.cells.layout.columns
        (λ _. first.now.sets) (λ _. second.now.sets) nodes.now items.items) }
{
    let mut items = Vec::with_capacity(alloc, nodes.len())?;
    'nodes: for node in nodes {
        items.push(shared_item(alloc, first, second, node.left, node.right)?)?;
    }
    Ok(items)
}

/// For each node of two splits, an item that meets its positions in the automata that are read in
/// its phase.
pub(crate) fn split_items(
    alloc: Global,
    first: &Nfa,
    second: &Nfa,
    nodes: &[Node],
) -> Result<Vec<Item<'static>>, AllocError>
    requires cells { first.now.cells ≡ second.now.cells }
    requires meet { HaveItems first.now.cells.layout.columns
        (left_of first.now.sets second.now.sets) (right_of first.now.sets second.now.sets)
        nodes.now }
    ensures { IfOk result (λ items. AllMeet first.now.cells.layout.columns
        (left_of first.now.sets second.now.sets) (right_of first.now.sets second.now.sets)
        nodes.now items.items) }
{
    let mut items = Vec::with_capacity(alloc, nodes.len())?;
    'nodes: for node in nodes {
        items.push(split_item(alloc, first, second, *node)?)?;
    }
    Ok(items)
}

fn split_item(
    alloc: Global,
    first: &Nfa,
    second: &Nfa,
    node: Node,
) -> Result<Item<'static>, AllocError>
    requires cells { first.now.cells ≡ second.now.cells }
    requires meet { HasItem first.now.cells.layout.columns
        (left_of first.now.sets second.now.sets) (right_of first.now.sets second.now.sets) node }
    ensures { IfOk result (λ item. MeetsBoth first.now.cells.layout.columns
        (left_of first.now.sets second.now.sets node.phase)
        (right_of first.now.sets second.now.sets node.phase) node.left node.right item) }
{
    match node.phase {
        Phase::Together => shared_item(alloc, first, first, node.left, node.right),
        Phase::Parted => shared_item(alloc, second, first, node.left, node.right),
        Phase::Rejoined => shared_item(alloc, second, second, node.left, node.right),
    }
}

// An item that meets a position of each automaton. It is the plainest one of the first cell whose
// items do.
fn shared_item(
    alloc: Global,
    first: &Nfa,
    second: &Nfa,
    left: u32,
    right: u32,
) -> Result<Item<'static>, AllocError>
    requires cells { first.now.cells ≡ second.now.cells }
    requires meet { MeetOne first.now.cells.layout.columns first.now.sets second.now.sets
        left right }
    ensures { IfOk result (λ item. MeetsBoth first.now.cells.layout.columns
        first.now.sets second.now.sets left right item) }
{
    'tried: for cell in 0..first.cells().count() {
        if has(first.met_by(cell), left) && has(second.met_by(cell), right) {
            return plain_item(alloc, first.cells(), cell);
        }
    }
    unreachable!()
}
