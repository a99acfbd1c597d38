//! A shortest word that factors in two ways.
ghost use Rattle.std.specs.Prelude.{◌≡◌, ◌<◌, ◌↔◌, ◌^◌, [], ◌∷◌, IfOk, MatchOption, length};
ghost use Rattle.rate_expr.specs.Paths.{AreOf};
ghost use Rattle.rate_expr.specs.Rates.{Regex};
ghost use Rattle.rate_expr.specs.Readings.{HasOneFactoring};
ghost use Rattle.ambiguity_check.specs.declared.graph.Node.{Node};
ghost use Rattle.ambiguity_check.specs.Factorings.{EndsFactors};
ghost use Rattle.ambiguity_check.specs.Walks.{IsIn};
ghost use Rattle.ambiguity_example.specs.declared.turns.Side.TheVariants.{Left, Right};
ghost use Rattle.ambiguity_example.specs.Met.{AllMeet, HaveItems};
ghost use Rattle.ambiguity_example.specs.Shows.{IsShortestShown, iter};
ghost use Rattle.ambiguity_example.specs.TurnLists.{AreTurns};

use crate::cuts::Cuts;
use crate::node_items::shared_items;
use crate::turns::{Side, cuts_of};
use crate::two_readings::Example;
use crate::walk::shortest_walk;
use ambiguity_check::{Factorings, Move, Moves, Node, Phase};
use rate_expr::Positions;
use std::alloc::{AllocError, Global};
use symbolic_nfa::Nfa;

/// A shortest word that factors in two ways into words of the rate, if there is one.
pub(crate) fn word_of_two_factorings(
    alloc: Global,
    nfa: &Nfa,
) -> Result<Option<Example>, AllocError>
    ensures { IfOk result (λ found. (r : Regex) → AreOf nfa.now.sets r → MatchOption found
        (HasOneFactoring nfa.now.cells.layout.columns r)
        (IsShortestShown nfa.now.cells.layout.columns (iter r))) }
{
    let positions = nfa.positions();
    if positions.nullable() {
        return Ok(Some(of_no_items(alloc)?));
    }
    let factorings = Factorings::new(alloc, nfa)?;
    let Some(walk) = shortest_walk(alloc, &factorings, ends_of(positions))? else {
        return Ok(None);
    };
    Ok(Some(example_of(alloc, nfa, &walk)?))
}

// The word of a walk, with its two factorings.
fn example_of(alloc: Global, nfa: &Nfa, walk: &[Node]) -> Result<Example, AllocError>
    requires meet { HaveItems nfa.now.cells.layout.columns (λ _. nfa.now.sets)
        (λ _. nfa.now.sets) walk.now }
    requires some { 0 < length walk.now }
    requires few { length walk.now < 2 ^ 32 }
    ensures meet { IfOk result (λ example. AllMeet nfa.now.cells.layout.columns
        (λ _. nfa.now.sets) (λ _. nfa.now.sets) walk.now example.items) }
    ensures first { IfOk result (λ example. AreTurns nfa.now.sets Left walk.now example.first) }
    ensures second { IfOk result (λ example.
        AreTurns nfa.now.sets Right walk.now example.second) }
{
    let positions = nfa.positions();
    let first = cuts_of(alloc, positions, Side::Left, walk)?;
    let second = cuts_of(alloc, positions, Side::Right, walk)?;
    let word = shared_items(alloc, nfa, nfa, walk)?;
    Ok(Example::new(word, first, second))
}

// Where both readings may end.
fn ends_of(positions: &Positions) -> Moves
    ensures { (node : Node) → IsIn result node ↔ EndsFactors positions.now node }
{
    Moves {
        stay: Move {
            phase: Phase::Parted,
            left: positions.last(),
            right: positions.last(),
        },
        turn: None,
    }
}

// The empty word, which factors into no piece and into one empty piece.
fn of_no_items(alloc: Global) -> Result<Example, AllocError>
    ensures { IfOk result (λ example. example ≡ record {
      items = [];
      first = 0 ∷ [];
      second = 0 ∷ 0 ∷ [];
    }) }
{
    let first = Cuts::new(alloc, &[0])?;
    let second = Cuts::new(alloc, &[0, 0])?;
    Ok(Example::new(Vec::new(alloc), first, second))
}
