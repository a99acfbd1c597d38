//! A shortest word that two rates share.
ghost use Rattle.std.specs.Prelude.{◌≡◌, ◌<◌, ◌↔◌, ◌^◌, true, IfOk, MatchOption, length};
ghost use Rattle.rate_expr.specs.Paths.{AreOf};
ghost use Rattle.rate_expr.specs.Rates.{Regex};
ghost use Rattle.rate_expr.specs.Readings.{AreDisjoint};
ghost use Rattle.rate_expr.specs.Words.{Word};
ghost use Rattle.ambiguity_check.specs.declared.graph.Node.{Node};
ghost use Rattle.ambiguity_check.specs.Overlaps.{EndsBoth};
ghost use Rattle.ambiguity_check.specs.Walks.{IsIn};
ghost use Rattle.ambiguity_example.specs.Met.{AllMeet, HaveItems};
ghost use Rattle.ambiguity_example.specs.Shows.{IsShortestShown, choice, twice_whole};

use crate::cuts::Cuts;
use crate::node_items::shared_items;
use crate::two_readings::Example;
use crate::walk::shortest_walk;
use ambiguity_check::{Move, Moves, Node, Pairs, Phase};
use item_schema::Item;
use rate_expr::Positions;
use std::alloc::{AllocError, Global};
use symbolic_nfa::Nfa;

/// A shortest word of both rates, if they share one.
pub(crate) fn shared_word(
    alloc: Global,
    first: &Nfa,
    second: &Nfa,
) -> Result<Option<Example>, AllocError>
    requires { first.now.cells ≡ second.now.cells }
    ensures { IfOk result (λ found. (r s : Regex)
        → AreOf first.now.sets r → AreOf second.now.sets s → MatchOption found
        (AreDisjoint first.now.cells.layout.columns r s)
        (IsShortestShown first.now.cells.layout.columns (choice r s))) }
{
    let (left, right) = (first.positions(), second.positions());
    if left.nullable() && right.nullable() {
        return Ok(Some(in_one_piece(alloc, Vec::new(alloc))?));
    }
    shared_nonempty_word(alloc, first, second)
}

// The same if the empty word is not in both.
fn shared_nonempty_word(
    alloc: Global,
    first: &Nfa,
    second: &Nfa,
) -> Result<Option<Example>, AllocError>
    requires cells { first.now.cells ≡ second.now.cells }
    requires nonempty { first.now.sets.nullable ≡ true → second.now.sets.nullable ≡ true → ⊥ }
    ensures { IfOk result (λ found. (r s : Regex)
        → AreOf first.now.sets r → AreOf second.now.sets s → MatchOption found
        (AreDisjoint first.now.cells.layout.columns r s)
        (IsShortestShown first.now.cells.layout.columns (choice r s))) }
{
    let ends = ends_of(first.positions(), second.positions());
    let pairs = Pairs::new(alloc, first, second)?;
    let Some(walk) = shortest_walk(alloc, &pairs, ends)? else {
        return Ok(None);
    };
    Ok(Some(example_of(alloc, first, second, &walk)?))
}

// The word of a walk. In both readings it is one piece.
fn example_of(
    alloc: Global,
    first: &Nfa,
    second: &Nfa,
    walk: &[Node],
) -> Result<Example, AllocError>
    requires cells { first.now.cells ≡ second.now.cells }
    requires meet { HaveItems first.now.cells.layout.columns (λ _. first.now.sets)
        (λ _. second.now.sets) walk.now }
    requires few { length walk.now < 2 ^ 32 }
    ensures { IfOk result (λ example. (word : Word) × AllMeet first.now.cells.layout.columns
        (λ _. first.now.sets) (λ _. second.now.sets) walk.now word
        × (example ≡ twice_whole word)) }
{
    let items = shared_items(alloc, first, second, walk)?;
    in_one_piece(alloc, items)
}

// Where both readings may end.
fn ends_of(first: &Positions, second: &Positions) -> Moves
    ensures { (node : Node) → IsIn result node ↔ EndsBoth first.now second.now node }
{
    Moves {
        stay: Move {
            phase: Phase::Together,
            left: first.last(),
            right: second.last(),
        },
        turn: None,
    }
}

fn in_one_piece(alloc: Global, items: Vec<Item<'static>>) -> Result<Example, AllocError>
    requires { length items.items < 2 ^ 32 }
    ensures { IfOk result (λ example. example ≡ twice_whole items.entry.items) }
{
    let whole = [0, items.len() as u32];
    let first = Cuts::new(alloc, &whole)?;
    let second = Cuts::new(alloc, &whole)?;
    Ok(Example::new(items, first, second))
}
