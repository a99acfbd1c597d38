//! The rule of words that a node breaks. The automata of its operands decide it.
ghost use Rattle.std.specs.Prelude.{◌≡◌, ℤ, IfOk};
ghost use Rattle.std.specs.List.{Contains};
ghost use Rattle.predicates.specs.Plain.{plain_of};
ghost use Rattle.query_model.specs.Queries.{Qre, atom, choice, combine, iter, split};
ghost use Rattle.query_model.specs.Rules.{Standing, bound};
ghost use Rattle.rate_expr.specs.FirstLastFollow.{AreSetsOf};
ghost use Rattle.rate_expr.specs.Plain as rates;
ghost use Rattle.rate_expr.specs.Rates as rate;
ghost use Rattle.rate_expr.specs.Rates.{preds_of};
ghost use Rattle.expressions.specs.Expressions.{Expression};
ghost use Rattle.query_resolver.specs.Findings.{AreAmong};
ghost use Rattle.type_checker.specs.Breaches.{IsAutomatonOf};
ghost use Rattle.type_checker.specs.WordRules.{BreaksAt, BreaksFed, BreaksMet};

use ambiguity_check::{disjoint, one_factoring, one_split};
use language_base::Rule;
use predicate_cells::Cells;
use predicates::Pred;
use rate_equal::{EqualStop, all_but_empty, same};
use rate_expr::Rate;
use std::alloc::{AllocError, Global};
use symbolic_nfa::Nfa;

/// The rule that an atom breaks, if no item meets its predicate.
pub(crate) fn empty_rule(cells: &Cells, pred: &Pred) -> Option<Rule>
    requires { Contains cells.now.preds (plain_of pred.now) }
    ensures { (standing : Standing) (value : Expression)
        → BreaksAt cells.now.layout.columns standing (atom (plain_of pred.now) value) result }
{
    if cells.mask(pred).is_empty() {
        Some(Rule::Empty)
    } else {
        None
    }
}

/// The rule that a choice breaks, if a word is in the rates of both operands.
pub(crate) fn choice_rule(
    alloc: Global,
    left: &Nfa,
    right: &Nfa,
) -> Result<Option<Rule>, AllocError>
    requires { left.now.cells ≡ right.now.cells }
    ensures { IfOk result (λ broken. (standing : Standing) (f g : Qre)
        → IsAutomatonOf f left.now → IsAutomatonOf g right.now
        → BreaksAt left.now.cells.layout.columns standing (choice f g) broken) }
{
    if disjoint(alloc, left, right)? {
        Ok(None)
    } else {
        Ok(Some(Rule::Choice))
    }
}

/// The rule that a split breaks, if a word splits in two ways.
pub(crate) fn split_rule(alloc: Global, left: &Nfa, right: &Nfa) -> Result<Option<Rule>, AllocError>
    requires { left.now.cells ≡ right.now.cells }
    ensures { IfOk result (λ broken. (standing : Standing) (f g : Qre) (value : Expression)
        → IsAutomatonOf f left.now → IsAutomatonOf g right.now
        → BreaksAt left.now.cells.layout.columns standing (split f g value) broken) }
{
    if one_split(alloc, left, right)? {
        Ok(None)
    } else {
        Ok(Some(Rule::Split))
    }
}

/// The rule that an iteration breaks, if a word factors in two ways.
pub(crate) fn iter_rule(alloc: Global, inner: &Nfa) -> Result<Option<Rule>, AllocError>
    ensures { IfOk result (λ broken. (standing : Standing) (f : Qre) (number : ℤ)
        (step : Expression) → IsAutomatonOf f inner.now
        → BreaksAt inner.now.cells.layout.columns standing (iter f number step) broken) }
{
    if one_factoring(alloc, inner)? {
        Ok(None)
    } else {
        Ok(Some(Rule::Iter))
    }
}

/// The rule that a combination breaks, if the rates of its operands differ, or if words lead to too
/// many pairs of states to compare them.
pub(crate) fn rates_rule(alloc: Global, left: &Nfa, right: &Nfa) -> Result<Option<Rule>, AllocError>
    requires { left.now.cells ≡ right.now.cells }
    ensures { IfOk result (λ broken. (standing : Standing) (f g : Qre) (value : Expression)
        → IsAutomatonOf f left.now → IsAutomatonOf g right.now
        → BreaksAt left.now.cells.layout.columns standing (combine f g value) broken) }
{
    match same(alloc, left, right) {
        Ok(true) => Ok(None),
        Ok(false) => Ok(Some(Rule::Rates)),
        Err(EqualStop::Reach) => Ok(Some(Rule::Reach)),
        Err(EqualStop::Memory) => Err(AllocError),
    }
}

/// The rule that a bound composition breaks, if some non-empty word of values is not in the rate of
/// its right operand, or if words lead to too many states to find that out.
pub(crate) fn fed_rule(alloc: Global, second: &Nfa) -> Result<Option<Rule>, AllocError>
    ensures { IfOk result (λ broken. (r : rate.Regex) → AreSetsOf second.now.sets r
        → BreaksFed bound second.now.cells.layout.columns r broken) }
{
    match all_but_empty(alloc, second) {
        Ok(true) => Ok(None),
        Ok(false) => Ok(Some(Rule::Compose)),
        Err(EqualStop::Reach) => Ok(Some(Rule::Reach)),
        Err(EqualStop::Memory) => Err(AllocError),
    }
}

/// The rule that a written rate breaks, if no item meets one of its predicates.
pub(crate) fn met_rule(cells: &Cells, rate: &Rate) -> Option<Rule>
    requires { AreAmong cells.now (preds_of (rates.plain_of rate.now)) }
    ensures { BreaksMet cells.now.layout.columns (preds_of (rates.plain_of rate.now)) result }
{
    match rate {
        Rate::Empty => None,
        Rate::One(pred) => empty_rule(cells, pred),
        Rate::Seq(left, right) | Rate::Alt(left, right) => {
            met_rule(cells, left).or(met_rule(cells, right))
        }
        Rate::Star(inner) => met_rule(cells, inner),
    }
}
