//! A shortest word that splits in two ways.
ghost use Rattle.std.specs.Prelude.{◌≡◌, ◌<◌, ◌↔◌, ◌+◌, ◌^◌, [], ◌∷◌, IfOk, MatchOption, length};
ghost use Rattle.rate_expr.specs.Paths.{AreOf};
ghost use Rattle.rate_expr.specs.Rates.{Regex};
ghost use Rattle.rate_expr.specs.Readings.{HaveOneSplit};
ghost use Rattle.ambiguity_check.specs.declared.graph.Node.{Node};
ghost use Rattle.ambiguity_check.specs.declared.graph.Phase.TheVariants.{Together, Parted};
ghost use Rattle.ambiguity_check.specs.Splits.{left_of, right_of, EndsSplits};
ghost use Rattle.ambiguity_check.specs.Walks.{IsIn};
ghost use Rattle.ambiguity_example.specs.Counts.{count_in};
ghost use Rattle.ambiguity_example.specs.Met.{AllMeet, HaveItems};
ghost use Rattle.ambiguity_example.specs.Shows.{IsShortestShown, split};

use crate::cuts::Cuts;
use crate::node_items::split_items;
use crate::two_readings::Example;
use crate::walk::shortest_walk;
use ambiguity_check::{Move, Moves, Node, Phase, Splits};
use rate_expr::Positions;
use std::alloc::{AllocError, Global};
use symbolic_nfa::Nfa;

/// A shortest word that splits in two ways into a word of the first rate and one of the second, if
/// there is one.
pub(crate) fn word_of_two_splits(
    alloc: Global,
    first: &Nfa,
    second: &Nfa,
) -> Result<Option<Example>, AllocError>
    requires { first.now.cells ≡ second.now.cells }
    ensures { IfOk result (λ found. (r s : Regex)
        → AreOf first.now.sets r → AreOf second.now.sets s → MatchOption found
        (HaveOneSplit first.now.cells.layout.columns r s)
        (IsShortestShown first.now.cells.layout.columns (split r s))) }
{
    let splits = Splits::new(alloc, first, second)?;
    let ends = ends_of(first.positions(), second.positions());
    let Some(walk) = shortest_walk(alloc, &splits, ends)? else {
        return Ok(None);
    };
    Ok(Some(example_of(alloc, first, second, &walk)?))
}

// The word of a walk, with its two splits.
fn example_of(
    alloc: Global,
    first: &Nfa,
    second: &Nfa,
    walk: &[Node],
) -> Result<Example, AllocError>
    requires cells { first.now.cells ≡ second.now.cells }
    requires meet { HaveItems first.now.cells.layout.columns
        (left_of first.now.sets second.now.sets) (right_of first.now.sets second.now.sets)
        walk.now }
    requires few { length walk.now < 2 ^ 32 }
    ensures meet { IfOk result (λ example. AllMeet first.now.cells.layout.columns
        (left_of first.now.sets second.now.sets) (right_of first.now.sets second.now.sets)
        walk.now example.items) }
    ensures first { IfOk result (λ example.
        example.first ≡ 0 ∷ count_in Together walk.now ∷ length walk.now ∷ []) }
    ensures second { IfOk result (λ example. example.second
        ≡ 0 ∷ (count_in Together walk.now + count_in Parted walk.now) ∷ length walk.now ∷ []) }
{
    let shorter = count_of(walk, Phase::Together);
    let longer = shorter + count_of(walk, Phase::Parted);
    let items = walk.len() as u32;
    let first_cuts = Cuts::new(alloc, &[0, shorter, items])?;
    let second_cuts = Cuts::new(alloc, &[0, longer, items])?;
    let word = split_items(alloc, first, second, walk)?;
    Ok(Example::new(word, first_cuts, second_cuts))
}

// Where both readings may end.
fn ends_of(first: &Positions, second: &Positions) -> Moves
    ensures { (node : Node) → IsIn result node ↔ EndsSplits first.now second.now node }
{
    let last = second.last();
    Moves {
        stay: Move {
            phase: Phase::Rejoined,
            left: last,
            right: last,
        },
        turn: second.nullable().then_some(Move {
            phase: Phase::Parted,
            left: last,
            right: first.last(),
        }),
    }
}

// How many of the nodes have the phase.
fn count_of(nodes: &[Node], phase: Phase) -> u32
    requires { length nodes.now < 2 ^ 32 }
    ensures { result ≡ count_in phase nodes.now }
{
    let mut count = 0;
    'nodes: for node in nodes {
        if node.phase == phase {
            count += 1;
        }
    }
    count
}
