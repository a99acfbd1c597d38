//! The root of a query: its rule of words is checked, and its positions are made from those of its
//! operands.
ghost use Rattle.std.specs.Prelude.{◌≡◌, ◌+◌, ◌≤◌, ℕ, ℤ, None, Some, IfErr, IfOk, OnOk, length};
ghost use Rattle.std.specs.Prelude.{List};
ghost use Rattle.std.specs.List.{Contains};
ghost use Rattle.language_base.specs.Limits.{max_positions};
ghost use Rattle.language_base.specs.declared.rule.Rule.{Rule};
ghost use Rattle.predicate_cells.specs.Cells.{Partition};
ghost use Rattle.predicates.specs.Plain.{plain_of};
ghost use Rattle.predicates.specs.Predicates.{Predicate};
ghost use Rattle.query_model.specs.Queries.{Qre, atom, choice, collect, combine, iter, split};
ghost use Rattle.rate_expr.specs.FirstLastFollow.{AreSetsOf};
ghost use Rattle.rate_expr.specs.Plain as rates;
ghost use Rattle.rate_expr.specs.Rates as rate;
ghost use Rattle.rate_expr.specs.Rates.{preds_of, size_of};
ghost use Rattle.symbolic_nfa.specs.Automata.{AreDecided};
ghost use Rattle.expressions.specs.Expressions.{Expression};
ghost use Rattle.type_checker.specs.Blames.{ambiguity_of, refusal_of};
ghost use Rattle.query_resolver.specs.Findings.{AreAmong};
ghost use Rattle.type_checker.specs.Breaches.{AreOperands, IsAutomatonOf, IsBrokenAt};
ghost use Rattle.type_checker.specs.Breaches.{IsKept, IsUnfed};
ghost use Rattle.type_checker.specs.Standings.{standing_of};
ghost use Rattle.type_checker.specs.WordRules.{BreaksFed};

use crate::blame::{Ambiguity, Blame, Operands};
use crate::standing::Standing;
use crate::word_rules::{
    choice_rule, empty_rule, fed_rule, iter_rule, met_rule, rates_rule, split_rule,
};
use crate::word_stop::WordStop;
use language_base::{Refusal, Rule, Span};
use predicate_cells::Cells;
use predicates::Pred;
use rate_expr::{Positions, Rate};
use std::alloc::{AllocError, Global};
use std::rc::Rc;
use symbolic_nfa::Nfa;

/// The positions of an atom: one item that meets the predicate.
pub(crate) fn one_item(
    alloc: Global,
    cells: &Rc<Cells>,
    pred: &Pred,
    span: Span,
) -> Result<Positions, WordStop>
    requires { Contains cells.now.value.preds (plain_of pred.now) }
    ensures kept { IfOk result (λ sets. (value : Expression)
        → IsKept cells.now.value.layout.columns (atom (plain_of pred.now) value) sets) }
    ensures refused { IfErr result (λ stop. (value : Expression)
        → IsBrokenAt cells.now.value.layout.columns (atom (plain_of pred.now) value) span stop) }
{
    keep(empty_rule(cells.as_ref(), pred), span)?;
    Ok(Positions::one(alloc, pred)?)
}

/// The positions of a choice: a word of either operand.
pub(crate) fn choice(alloc: Global, operands: Operands, span: Span) -> Result<Positions, WordStop>
    requires cells { operands.left.cells ≡ operands.right.cells }
    requires few { length operands.left.sets.preds + length operands.right.sets.preds
        ≤ max_positions }
    ensures kept { IfOk result (λ sets. (cells : Partition) (f g : Qre)
        → AreOperands cells f g operands → IsKept cells.layout.columns (choice f g) sets) }
    ensures refused { IfErr result (λ stop. (cells : Partition) (f g : Qre)
        → AreOperands cells f g operands → IsBrokenAt cells.layout.columns (choice f g) span stop) }
{
    match choice_rule(alloc, &operands.left, &operands.right)? {
        Some(rule) => {
            let ambiguity = Ambiguity::Choice(Box::new(alloc, operands)?);
            Err(WordStop::Ambiguous(blame(alloc, ambiguity, rule, span)?))
        }
        None => {
            let left = operands.left.into_positions();
            Ok(left.or(operands.right.into_positions())?)
        }
    }
}

/// The positions of a split: a word of the first operand, and then one of the second.
pub(crate) fn split(alloc: Global, operands: Operands, span: Span) -> Result<Positions, WordStop>
    requires cells { operands.left.cells ≡ operands.right.cells }
    requires few { length operands.left.sets.preds + length operands.right.sets.preds
        ≤ max_positions }
    ensures kept { IfOk result (λ sets. (cells : Partition) (f g : Qre) (value : Expression)
        → AreOperands cells f g operands → IsKept cells.layout.columns (split f g value) sets) }
    ensures refused { IfErr result (λ stop. (cells : Partition) (f g : Qre) (value : Expression)
        → AreOperands cells f g operands
        → IsBrokenAt cells.layout.columns (split f g value) span stop) }
{
    match split_rule(alloc, &operands.left, &operands.right)? {
        Some(rule) => {
            let ambiguity = Ambiguity::Split(Box::new(alloc, operands)?);
            Err(WordStop::Ambiguous(blame(alloc, ambiguity, rule, span)?))
        }
        None => {
            let left = operands.left.into_positions();
            Ok(left.then(operands.right.into_positions())?)
        }
    }
}

/// The positions of an iteration: words of the operand, one after the other.
pub(crate) fn iterated(alloc: Global, operand: Nfa, span: Span) -> Result<Positions, WordStop>
    ensures kept { IfOk result (λ sets. (f : Qre) (number : ℤ) (step : Expression)
        → IsAutomatonOf f operand
        → IsKept operand.cells.layout.columns (iter f number step) sets) }
    ensures refused { IfErr result (λ stop. (f : Qre) (number : ℤ) (step : Expression)
        → IsAutomatonOf f operand
        → IsBrokenAt operand.cells.layout.columns (iter f number step) span stop) }
{
    match iter_rule(alloc, &operand)? {
        Some(rule) => {
            let ambiguity = Ambiguity::Iter(Box::new(alloc, operand)?);
            Err(WordStop::Ambiguous(blame(alloc, ambiguity, rule, span)?))
        }
        None => Ok(operand.into_positions().star()),
    }
}

/// The positions of a combination: a word that is in both rates, which are to be equal.
pub(crate) fn side_by_side(
    alloc: Global,
    operands: Operands,
    span: Span,
) -> Result<Positions, WordStop>
    requires { operands.left.cells ≡ operands.right.cells }
    ensures kept { IfOk result (λ sets. (cells : Partition) (f g : Qre) (value : Expression)
        → AreOperands cells f g operands → IsKept cells.layout.columns (combine f g value) sets) }
    ensures refused { IfErr result (λ stop. (cells : Partition) (f g : Qre) (value : Expression)
        → AreOperands cells f g operands
        → IsBrokenAt cells.layout.columns (combine f g value) span stop) }
{
    keep(rates_rule(alloc, &operands.left, &operands.right)?, span)?;
    Ok(operands.left.into_positions())
}

/// Whether the right operand of a composition has a value after each value of the left one. This is
/// checked only where the composition is bound.
pub(crate) fn fed(
    alloc: Global,
    standing: Standing,
    cells: &Rc<Cells>,
    second: Positions,
    span: Span,
) -> Result<(), WordStop>
    requires { AreDecided second cells.now.value }
    ensures kept { OnOk result ((r : rate.Regex) → AreSetsOf second r
        → BreaksFed (standing_of standing) cells.now.value.layout.columns r None) }
    ensures refused { IfErr result (λ stop. (r : rate.Regex) → AreSetsOf second r
        → IsUnfed (standing_of standing) cells.now.value.layout.columns r span stop) }
{
    match standing {
        Standing::Free => Ok(()),
        Standing::Bound => {
            let second = Nfa::new(alloc, second, cells)?;
            keep(fed_rule(alloc, &second)?, span)
        }
    }
}

/// The positions of a collection: those of its written rate.
pub(crate) fn collected(
    alloc: Global,
    cells: &Rc<Cells>,
    rate: &Rate,
    span: Span,
) -> Result<Positions, WordStop>
    requires few { size_of (rates.plain_of rate.now) ≤ max_positions }
    requires members { AreAmong cells.now.value (preds_of (rates.plain_of rate.now)) }
    ensures kept { IfOk result (λ sets. (key : List ℕ) (sync : Predicate) (f : Qre)
        → IsKept cells.now.value.layout.columns
        (collect key sync (rates.plain_of rate.now) f) sets) }
    ensures refused { IfErr result (λ stop. (key : List ℕ) (sync : Predicate) (f : Qre)
        → IsBrokenAt cells.now.value.layout.columns
        (collect key sync (rates.plain_of rate.now) f) span stop) }
{
    keep(met_rule(cells.as_ref(), rate), span)?;
    Ok(Positions::of(alloc, rate)?)
}

// Whether no rule is broken. A broken one is refused at the place.
fn keep(broken: Option<Rule>, span: Span) -> Result<(), WordStop>
    ensures kept { OnOk result (broken ≡ None) }
    ensures refused { IfErr result (λ stop. (rule : Rule) × (broken ≡ Some rule)
        × (stop ≡ WordStop.Broken (record { rule = rule; span = span }))) }
{
    match broken {
        Some(rule) => Err(WordStop::broken(rule, span)),
        None => Ok(()),
    }
}

// The refusal by this rule at the place, with the automata that the rule is about.
fn blame(
    alloc: Global,
    ambiguity: Ambiguity,
    rule: Rule,
    span: Span,
) -> Result<Box<Blame>, AllocError>
    ensures refusal { IfOk result (λ blame.
        refusal_of blame.value ≡ record { rule = rule; span = span }) }
    ensures ambiguity { IfOk result (λ blame. ambiguity_of blame.value ≡ ambiguity) }
{
    let blame = Blame::new(Refusal { rule, span }, ambiguity);
    Ok(Box::new(alloc, blame)?)
}
